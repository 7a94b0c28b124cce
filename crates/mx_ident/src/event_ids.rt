// Event ids.
ghost use Rattle.std.specs.Prelude.{◌≡◌, ◌↔◌, IfOk, IsErrOf, IsTrue, IsUtf8, List, OnOk, ℕ, Some, bytes_eq, refl, string_bytes};
ghost use Rattle.std.specs.Cmp.{partial_equiv_from_equiv};
ghost use Rattle.std.specs.Cmp.Lexicographic.{nat_list_cmp_total, nat_list_eq_equiv, slice_cmp, texts_po, texts_ties};
ghost use Rattle.std.specs.Ordering.{nat_cmp};
ghost use Rattle.std.specs.Result.{result_err};
ghost use Rattle.mx_ident.specs.Identifier.{event_id_error, is_event_id};
ghost use Rattle.mx_ident.specs.declared.refusals.NotAnId.{NotAnId as Cause};

use crate::checking::check_event_id;
use crate::refusals::{IdError, NotAnId};
use std::alloc::{AllocError, Global};
use std::cmp::Ordering;
use std::fmt;
use std::marker::Model;

/// An event id, as `$acR1l0raoZnm60CBwAVgqbZqoO/mYU81xysh1u7XcJk`: `$` and at least one byte more, at most 255 bytes.
/// It names no server, as in room version 3 and later.
///
/// Source: the appendix "Event IDs" of the Matrix specification.
#[derive(Debug, Drop)]
pub struct EventId {
    text: String,
}

impl Model for EventId {
    ghost Value = { List ℕ };

    ghost view = { λ id. string_bytes id.text };

    ghost invariant = { λ id. IsTrue (is_event_id (string_bytes id.text)) };
}

impl EventId {
    /// The event id with this text.
    ///
    /// `NotAnId` with the cause that [`EventId::check`] gives.
    pub fn parse(alloc: Global, text: &str) -> Result<EventId, IdError>
        ensures ok { IfOk result (λ id. id ≡ text.now) }
        ensures kind { OnOk result (IsTrue (is_event_id text.now)) }
        // It is tested first, so that memory may run out only where the text is an event id.
        ensures refused { (cause : Cause)
            → (IsErrOf result (IdError.NotAnId cause) ↔ (event_id_error text.now ≡ Some cause)) }
    {
        EventId::check(text)?;
        let text = String::from_str(alloc, text)?;
        Ok(EventId { text })
    }

    /// Whether the text is an event id, and if not, why. It takes no memory.
    ///
    /// `NoSigil`, then `NothingAfterSigil`, then `TooLong`.
    pub fn check(text: &str) -> Result<(), NotAnId>
        ensures { result_err result ≡ event_id_error text.now }
    {
        check_event_id(text)
    }

    /// Whether the text is an event id. It takes no memory.
    pub fn is(text: &str) -> bool
        ensures { result ≡ is_event_id text.now }
    {
        EventId::check(text).is_ok()
    }

    /// Its text.
    pub fn as_str(&self) -> &str
        ensures text { result.now ≡ self.now }
        ensures event_id { IsTrue (is_event_id self.now) }
        ensures utf8 { IsUtf8 self.now }
    {
        &self.text
    }
}

impl Clone for EventId {
    ghost is_clone = { λ id copy. copy ≡ id };

    fn clone(&self) -> Result<EventId, AllocError> {
        let text = self.text.clone()?;
        Ok(EventId { text })
    }
}

impl fmt::Display for EventId {
    ghost output = { λ id. Some id };

    fn fmt<W: fmt::Write>(&self, f: &mut fmt::Formatter<W>) -> fmt::Result {
        fmt::Display::fmt(&self.as_str(), f)
    }
}

// They compare as their texts do, byte by byte.
impl PartialEq for EventId {
    ghost eq = { bytes_eq };

    ghost laws = { partial_equiv_from_equiv nat_list_eq_equiv };

    fn eq(&self, other: &EventId) -> bool {
        self.as_str() == other.as_str()
    }
}

impl Eq for EventId {
    ghost laws = { nat_list_eq_equiv };
}

impl PartialOrd for EventId {
    ghost partial_cmp = { λ a b. Some (slice_cmp nat_cmp a b) };

    ghost laws = { texts_po };

    fn partial_cmp(&self, other: &EventId) -> Option<Ordering> {
        Some(self.cmp(other))
    }
}

impl Ord for EventId {
    ghost cmp = { slice_cmp nat_cmp };

    ghost total = { nat_list_cmp_total };

    ghost matches_partial_cmp = { λ _ _. refl };

    ghost matches_eq = { texts_ties };

    fn cmp(&self, other: &EventId) -> Ordering {
        self.as_str().cmp(other.as_str())
    }
}
