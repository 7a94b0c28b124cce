// What holds of every event.
ghost use Rattle.std.specs.Prelude.{IsTrue};
ghost use Rattle.serde_json.specs.Data.{Data};
ghost use Rattle.mx_canon.specs.KeyOrder.{KeysRise};
ghost use Rattle.mx_redact.specs.Redaction.{redact};
ghost use Rattle.mx_pdu.specs.Format.{is_well_formed};

/// The redacted form of a well-formed event is well formed. The keys of each serde_json object are in order.
pub fn redaction_keeps_the_format()
    ensures { (event : Data) → IsTrue (is_well_formed event) → KeysRise event → IsTrue (is_well_formed (redact event)) }
{}
