// Room ids.
ghost use Rattle.std.specs.Prelude.{◌≡◌, ◌↔◌, IfOk, IsErrOf, IsTrue, IsUtf8, List, OnOk, ℕ, Some, bytes_eq, refl, string_bytes};
ghost use Rattle.std.specs.Cmp.{partial_equiv_from_equiv};
ghost use Rattle.std.specs.Cmp.Lexicographic.{nat_list_cmp_total, nat_list_eq_equiv, slice_cmp, texts_po, texts_ties};
ghost use Rattle.std.specs.Ordering.{nat_cmp};
ghost use Rattle.std.specs.Result.{result_err};
ghost use Rattle.mx_ident.specs.Identifier.{is_server_name, is_room_id, server_of, room_id_error};
ghost use Rattle.mx_ident.specs.declared.refusals.NotAnId.{NotAnId as Cause};

use crate::checking::{after_colon, check_common};
use crate::refusals::{IdError, NotAnId};
use crate::server_names::ServerName;
use std::alloc::{AllocError, Global};
use std::cmp::Ordering;
use std::fmt;
use std::marker::Model;

/// A room id, as `!wonderland:example.org`: `!`, a local part, a colon and a server name, at most 255 bytes.
///
/// Source: the appendix "Room IDs" of the Matrix specification.
#[derive(Debug, Drop)]
pub struct RoomId {
    text: String,
}

impl Model for RoomId {
    ghost Value = { List ℕ };

    ghost view = { λ id. string_bytes id.text };

    ghost invariant = { λ id. IsTrue (is_room_id (string_bytes id.text)) };
}

impl RoomId {
    /// The room id with this text.
    ///
    /// `NotAnId` with the cause that [`RoomId::check`] gives.
    pub fn parse(alloc: Global, text: &str) -> Result<RoomId, IdError>
        ensures ok { IfOk result (λ id. id ≡ text.now) }
        ensures kind { OnOk result (IsTrue (is_room_id text.now)) }
        // It is tested first, so that memory may run out only where the text is a room id.
        ensures refused { (cause : Cause)
            → (IsErrOf result (IdError.NotAnId cause) ↔ (room_id_error text.now ≡ Some cause)) }
    {
        RoomId::check(text)?;
        let text = String::from_str(alloc, text)?;
        Ok(RoomId { text })
    }

    /// Whether the text is a room id, and if not, why. It takes no memory.
    ///
    /// `NoSigil`, then `NoColon`, then `EmptyServer`, then `TooLong`.
    pub fn check(text: &str) -> Result<(), NotAnId>
        ensures { result_err result ≡ room_id_error text.now }
    {
        check_common('!', text)
    }

    /// Whether the text is a room id. It takes no memory.
    pub fn is(text: &str) -> bool
        ensures { result ≡ is_room_id text.now }
    {
        RoomId::check(text).is_ok()
    }

    /// Its text.
    pub fn as_str(&self) -> &str
        ensures text { result.now ≡ self.now }
        ensures room_id { IsTrue (is_room_id self.now) }
        ensures utf8 { IsUtf8 self.now }
    {
        &self.text
    }

    /// The text of its server name, which stands after the first colon. It takes no memory.
    pub fn server(&self) -> &str
        ensures server { result.now ≡ server_of self.now }
        ensures server_name { IsTrue (is_server_name result.now) }
    {
        after_colon(self.as_str())
    }
    /// Its server name.
    pub fn server_name(&self, alloc: Global) -> Result<ServerName, AllocError>
        ensures { IfOk result (λ name. name ≡ server_of self.now) }
    {
        ServerName::of_checked(alloc, self.server())
    }
}

impl Clone for RoomId {
    ghost is_clone = { λ id copy. copy ≡ id };

    fn clone(&self) -> Result<RoomId, AllocError> {
        let text = self.text.clone()?;
        Ok(RoomId { text })
    }
}

impl fmt::Display for RoomId {
    ghost output = { λ id. Some id };

    fn fmt<W: fmt::Write>(&self, f: &mut fmt::Formatter<W>) -> fmt::Result {
        fmt::Display::fmt(&self.as_str(), f)
    }
}

// They compare as their texts do, byte by byte.
impl PartialEq for RoomId {
    ghost eq = { bytes_eq };

    ghost laws = { partial_equiv_from_equiv nat_list_eq_equiv };

    fn eq(&self, other: &RoomId) -> bool {
        self.as_str() == other.as_str()
    }
}

impl Eq for RoomId {
    ghost laws = { nat_list_eq_equiv };
}

impl PartialOrd for RoomId {
    ghost partial_cmp = { λ a b. Some (slice_cmp nat_cmp a b) };

    ghost laws = { texts_po };

    fn partial_cmp(&self, other: &RoomId) -> Option<Ordering> {
        Some(self.cmp(other))
    }
}

impl Ord for RoomId {
    ghost cmp = { slice_cmp nat_cmp };

    ghost total = { nat_list_cmp_total };

    ghost matches_partial_cmp = { λ _ _. refl };

    ghost matches_eq = { texts_ties };

    fn cmp(&self, other: &RoomId) -> Ordering {
        self.as_str().cmp(other.as_str())
    }
}
