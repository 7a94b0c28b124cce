// Why events that were offered were not kept.
use crate::auditing::line_kinds::LineKind;
use mx_auth::Rule;
use mx_ident::EventId;
use mx_lines::{MalformedEvent, RefusedCause, RefusedEvent, malformed_line, refused_line};
use mx_room::{NotARoom, Refusal};
use std::alloc::{AllocError, Global};

/// What was offered and not kept.
#[derive(Drop)]
pub(crate) enum NotKept {
    Refused(RefusedEvent),
    Malformed(MalformedEvent),
}

impl NotKept {
    /// How many events the room had when it was offered.
    pub(crate) fn after(&self) -> usize {
        match self {
            NotKept::Refused(refused) => refused.offering.after,
            NotKept::Malformed(malformed) => malformed.offering.after,
        }
    }

    /// What kind of line tells of it.
    pub(crate) fn kind(&self) -> LineKind {
        match self {
            NotKept::Refused(refused) => LineKind::Refused(refused.cause),
            NotKept::Malformed(_) => LineKind::Malformed,
        }
    }

    /// Whether it is the event with this ID.
    pub(crate) fn is_event(&self, id: &EventId) -> bool {
        match self {
            NotKept::Refused(refused) => &refused.id == id,
            NotKept::Malformed(_) => false,
        }
    }

    /// The line that tells of it.
    pub(crate) fn line(&self, alloc: Global) -> Result<Vec<u8>, AllocError> {
        match self {
            NotKept::Refused(refused) => refused_line(alloc, refused),
            NotKept::Malformed(malformed) => malformed_line(alloc, malformed),
        }
    }
}

/// Why a room did not keep an event.
pub(crate) fn cause_of_refusal(refusal: Refusal) -> RefusedCause {
    match refusal {
        Refusal::AccessList => RefusedCause::AccessList,
        Refusal::SecondCreate => RefusedCause::SecondCreate,
        Refusal::Signature => RefusedCause::Signature,
        Refusal::MissingEvents => RefusedCause::MissingEvents,
        Refusal::RoomFull => RefusedCause::RoomFull,
    }
}

/// Why an event begins no room.
pub(crate) fn cause_of_host(why: NotARoom) -> RefusedCause {
    match why {
        NotARoom::NotACreateEvent => RefusedCause::NotACreateEvent,
        NotARoom::CitesAuthEvents => RefusedCause::CitesAuthEvents,
        NotARoom::Unsigned => RefusedCause::Signature,
        NotARoom::BadContentHash => RefusedCause::ContentHash,
        NotARoom::BreaksRule(rule) => cause_of_rule(rule),
    }
}

// The rules on create events are the only ones that an event breaks before its room is hosted.
fn cause_of_rule(rule: Rule) -> RefusedCause {
    match rule {
        Rule::CreateHasPrevEvents => RefusedCause::CreateHasPrevEvents,
        Rule::CreateOfAnotherServer => RefusedCause::CreateOfAnotherServer,
        Rule::CreateVersionUnknown => RefusedCause::CreateVersionUnknown,
        Rule::CreateWithoutCreator => RefusedCause::CreateWithoutCreator,
        _ => RefusedCause::NotACreateEvent,
    }
}
