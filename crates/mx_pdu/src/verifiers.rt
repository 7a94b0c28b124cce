// Whether an event's signatures are accepted.
ghost use Rattle.std.specs.Prelude.{◌≡◌, Bool, List, ℕ};
ghost use Rattle.std.specs.List.{list_any};
ghost use Rattle.serde_json.specs.Data.{Data, object};
ghost use Rattle.serde_json.specs.View.{view, members_view};
ghost use Rattle.mx_pdu.specs.Verifiers.{is_signature, is_signed_by, values_of};

use crate::lookups::object_named;
use mx_ident::ServerName;
use serde_json::{Map, Value};

/// What accepts or refuses the signatures of a server. Its answer is a function of the three arguments.
///
/// Source: the Matrix specification, Server-Server API, "Validating hashes and signatures on received events".
pub trait Verifier {
    // Its answer on a server, the bytes that are signed and the event's `signatures`.
    ghost judges: { Self → List ℕ → List ℕ → Data → Bool };

    /// Whether the signatures of this server are accepted for these bytes. It takes no memory.
    fn accepts(&self, server: &ServerName, bytes: &[u8], signatures: &Map<String, Value>) -> bool
        ensures { result ≡ judges self.now server.now bytes.now (object (members_view signatures.now.entries)) };
}

/// A verifier without keys: it accepts where the server has any signature at all, a text that is not empty.
#[derive(Clone, Copy, Debug, PartialEq, Eq, Default, Drop)]
pub struct PresenceVerifier;

impl Verifier for PresenceVerifier {
    ghost judges = { λ _ server _ signatures. is_signed_by server signatures };

    fn accepts(&self, server: &ServerName, _bytes: &[u8], signatures: &Map<String, Value>) -> bool {
        match object_named(signatures, server.as_str()) {
            Some(of_server) => has_signature(of_server),
            None => false,
        }
    }
}

// Whether a value of the members is a signature.
fn has_signature(members: &Map<String, Value>) -> bool
    ensures { result ≡ list_any is_signature (values_of (members_view members.now.entries)) }
{
    for (_, value) in members.iter() {
        if holds_signature(value) {
            return true;
        }
    }
    false
}

fn holds_signature(value: &Value) -> bool
    ensures { result ≡ is_signature (view value.now) }
{
    match value.as_str() {
        Some(text) => !text.is_empty(),
        None => false,
    }
}
