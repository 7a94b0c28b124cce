// Which create events make a room.
ghost use Rattle.std.specs.Prelude.{◌≡◌, ◌&&◌, nat_lt, length, codes, []};
ghost use Rattle.mx_redact.specs.Fields.{is_text};
ghost use Rattle.mx_pdu.specs.Event.{has_kind, state_key_of, auth_ids};
ghost use Rattle.mx_auth.specs.Rules.{rules};
ghost use Rattle.mx_orders.specs.StateMap.{view};
ghost use Rattle.mx_receipt.specs.Receipt.{created_version as created_version_of};
ghost use Rattle.mx_room.specs.Hosting.{host_error, reopen_error};

use mx_auth::{RoomState, Rule, judge};
use mx_ident::EventId;
use mx_pdu::{Offered, Pdu};
use mx_receipt::created_version;
use std::alloc::{AllocError, AllocFailed};
use thiserror::Error;

/// Why an event makes no room, in the order in which it is asked.
///
/// `NotACreateEvent`: its type is not `m.room.create`, or its state key is not empty. `CitesAuthEvents`: it rests on
/// events. `Unsigned`: its signatures were refused. `BadContentHash`: its content hash is wrong. `BreaksRule`: an
/// authorization rule refuses it.
///
/// Source: the Matrix specification, Room Version 6 and Room Version 7, "Authorization rules", rule 1; the order is ours.
#[derive(Clone, Copy, Debug, PartialEq, Eq, Drop, Error)]
pub enum NotARoom {
    #[error("not a create event")]
    NotACreateEvent,
    #[error("cites auth events")]
    CitesAuthEvents,
    #[error("signature")]
    Unsigned,
    #[error("content hash")]
    BadContentHash,
    #[error("rule {0}")]
    BreaksRule(Rule),
}

/// Why a room is not hosted: no memory was left, or the event makes none.
#[derive(Clone, Copy, Debug, PartialEq, Eq, Drop, Error)]
pub enum HostError {
    #[error("out of memory")]
    Memory,
    #[error(transparent)]
    NotARoom(NotARoom),
}

impl From<AllocError> for HostError {
    ghost use Rattle.std.specs.Prelude.{◌≡◌};
    ghost use Rattle.mx_room.specs.declared.hosting.HostError.TheVariants.{Memory};

    ghost from_gives = { λ _ f. f ≡ Memory };

    fn from(_refused: AllocError) -> HostError {
        HostError::Memory
    }
}

// The state of a room that is not hosted.
#[derive(Clone, Copy, Debug)]
struct NoState;

impl RoomState for NoState {
    ghost use Rattle.std.specs.Prelude.{[]};
    ghost use Rattle.mx_orders.specs.StateMap.{view};

    ghost state = { λ _. view [] [] };

    fn create_id(&self) -> Option<&EventId> {
        None
    }

    fn entry(&self, _kind: &str, _key: &str) -> Option<&Pdu> {
        None
    }
}

/// Why the event makes no room, where it makes none. It takes no memory.
#[tactic(auto, unfolding(crate::specs::Hosting::host_error))]
pub fn hosting_fault(offered: &Offered) -> Option<NotARoom>
    ensures { result ≡ host_error offered.now }
{
    let event = &offered.pdu;
    if !is_create(event) {
        Some(NotARoom::NotACreateEvent)
    } else if cites_auth_events(event) {
        Some(NotARoom::CitesAuthEvents)
    } else if !offered.signed {
        Some(NotARoom::Unsigned)
    } else if !event.hash_holds() {
        Some(NotARoom::BadContentHash)
    } else {
        broken_rule(event).map(NotARoom::BreaksRule)
    }
}

/// Why a create event that a room kept makes it no more. Its signature and its content hash are not asked again. It takes
/// no memory.
#[tactic(auto, unfolding(crate::specs::Hosting::reopen_error))]
pub(crate) fn reopening_fault(event: &Pdu) -> Option<NotARoom>
    ensures { result ≡ reopen_error event.now }
{
    if !is_create(event) {
        return Some(NotARoom::NotACreateEvent);
    }
    if cites_auth_events(event) {
        return Some(NotARoom::CitesAuthEvents);
    }
    broken_rule(event).map(NotARoom::BreaksRule)
}

// A create event, with the empty state key.
fn is_create(event: &Pdu) -> bool
    ensures { result ≡ (has_kind (codes "m.room.create") event.now && is_text [] (state_key_of event.now)) }
{
    event.kind() == "m.room.create" && event.state_key() == Some("")
}

fn cites_auth_events(event: &Pdu) -> bool
    ensures { result ≡ nat_lt 0 (length (auth_ids event.now)) }
{
    !event.auth_events().is_empty()
}

fn broken_rule(event: &Pdu) -> Option<Rule>
    ensures { result ≡ rules (created_version_of event.now) event.now (view [] []) }
{
    judge(created_version(event), event, &NoState).err()
}
