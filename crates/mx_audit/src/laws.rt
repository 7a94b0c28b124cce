// Laws of explanations.
ghost use Rattle.std.specs.Prelude.{◌≡◌, List};
ghost use Rattle.mx_redact.specs.Fields.{Event};
ghost use Rattle.mx_receipt.specs.Receipt.{Kept, verdict};
ghost use Rattle.mx_auth.specs.declared.versions.RoomVersion.{RoomVersion};
ghost use Rattle.mx_graph.specs.Record.{Row};
ghost use Rattle.mx_graph.specs.StateMap.{State};
ghost use Rattle.mx_state_res.specs.Resolution.{resolve};
ghost use Rattle.mx_audit.specs.Explaining.{deciding_check, verdict_by};
ghost use Rattle.mx_audit.specs.Steps.{other_steps, power_steps, state_by_steps};

/// A law: the check that decides makes the verdict. Where none fails an event is accepted; it is soft failed where the one
/// by the current state fails, and rejected where one before that does, by the same line of the rules. It does nothing:
/// this is what it ensures.
///
/// Source: the Matrix specification, Server-Server API, "Checks performed on receipt of a PDU".
pub fn deciding_check_makes_the_verdict()
    ensures { (kept : List Kept) (event : Event) → verdict kept event ≡ verdict_by (deciding_check kept event) }
{}

/// A law: the steps of a resolution make the resolved state. The events that they allow are put, in their order, into the
/// unconflicted state, which in the end stands over all. It does nothing: this is what it ensures.
///
/// Source: the Matrix specification, Room Version 2, "State resolution".
pub fn steps_make_the_state()
    ensures { (version : RoomVersion) (rows : List Row) (states : List State)
        → state_by_steps rows states (power_steps version rows states) (other_steps version rows states) ≡ resolve version rows states }
{}
