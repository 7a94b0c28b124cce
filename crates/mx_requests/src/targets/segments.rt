// What the parameters of a route are in a path.
ghost use Rattle.std.specs.Prelude.{◌≡◌, ◌⊎◌, Ok, Err, IfErr, IfOk, OnOk, false, string_bytes, true};
ghost use Rattle.std.specs.List.{after_first};
ghost use Rattle.std.specs.Str.{is_utf8};
ghost use Rattle.percent_encoding.specs.Percent.{percent_decode};
ghost use Rattle.mx_requests.specs.Targets as definition;

use crate::faults::{Fault, InvalidPart};
use mx_ident::{EventId, IdError, RoomId, UserId};
use percent_encoding::{DecodeError, percent_decode};
use std::alloc::Global;

/// The room id that the route's parameter in this place, from 0, is in a path.
///
/// `Invalid` where the segment, percent-decoded, is not UTF-8 or no room id; `Memory`.
pub(crate) fn room_at(alloc: Global, path: &str, place: usize) -> Result<RoomId, Fault>
    ensures ok { IfOk result (λ id. definition.room_at path.now place ≡ Ok id) }
    ensures err { IfErr result (λ fault. (fault ≡ Fault.Memory) ⊎ (definition.room_at path.now place ≡ Err fault)) }
{
    let text = decoded_at(alloc, path, place, InvalidPart::RoomId)?;
    match RoomId::parse(alloc, &text) {
        Ok(id) => Ok(id),
        Err(IdError::Memory) => Err(Fault::Memory),
        Err(IdError::NotAnId(_)) => Err(Fault::Invalid(InvalidPart::RoomId)),
    }
}

/// The user id that the route's parameter in this place, from 0, is in a path.
///
/// `Invalid` where the segment, percent-decoded, is not UTF-8 or no user id; `Memory`.
pub(crate) fn user_at(alloc: Global, path: &str, place: usize) -> Result<UserId, Fault>
    ensures ok { IfOk result (λ id. definition.user_at path.now place ≡ Ok id) }
    ensures err { IfErr result (λ fault. (fault ≡ Fault.Memory) ⊎ (definition.user_at path.now place ≡ Err fault)) }
{
    let text = decoded_at(alloc, path, place, InvalidPart::UserId)?;
    match UserId::parse(alloc, &text) {
        Ok(id) => Ok(id),
        Err(IdError::Memory) => Err(Fault::Memory),
        Err(IdError::NotAnId(_)) => Err(Fault::Invalid(InvalidPart::UserId)),
    }
}

/// The event id that the route's parameter in this place, from 0, is in a path.
///
/// `Invalid` where the segment, percent-decoded, is not UTF-8 or no event id; `Memory`.
pub(crate) fn event_at(alloc: Global, path: &str, place: usize) -> Result<EventId, Fault>
    ensures ok { IfOk result (λ id. definition.event_at path.now place ≡ Ok id) }
    ensures err { IfErr result (λ fault. (fault ≡ Fault.Memory) ⊎ (definition.event_at path.now place ≡ Err fault)) }
{
    let text = decoded_at(alloc, path, place, InvalidPart::EventId)?;
    match EventId::parse(alloc, &text) {
        Ok(id) => Ok(id),
        Err(IdError::Memory) => Err(Fault::Memory),
        Err(IdError::NotAnId(_)) => Err(Fault::Invalid(InvalidPart::EventId)),
    }
}

/// The number of a transaction, which is any text, that the route's parameter in this place, from 0, is in a path.
///
/// `Invalid` where the segment, percent-decoded, is not UTF-8; `Memory`.
pub(crate) fn txn_at(alloc: Global, path: &str, place: usize) -> Result<String, Fault>
    ensures ok { IfOk result (λ txn. definition.txn_at path.now place ≡ Ok (string_bytes txn)) }
    ensures err { IfErr result (λ fault. (fault ≡ Fault.Memory) ⊎ (definition.txn_at path.now place ≡ Err fault)) }
{
    let text = decoded_at(alloc, path, place, InvalidPart::Path)?;
    Ok(text)
}

// The segment in this place, decoded; `Invalid` with this part where it is not UTF-8.
fn decoded_at(alloc: Global, path: &str, place: usize, part: InvalidPart) -> Result<String, Fault>
    ensures ok { IfOk result (λ text. string_bytes text ≡ percent_decode (definition.segment_at path.now place)) }
    ensures utf8 { OnOk result (is_utf8 (percent_decode (definition.segment_at path.now place)) ≡ true) }
    ensures err { IfErr result (λ fault. (fault ≡ Fault.Memory)
        ⊎ ((fault ≡ Fault.Invalid part) × (is_utf8 (percent_decode (definition.segment_at path.now place)) ≡ false))) }
{
    let segment = segment_at(path, place);
    match percent_decode(segment.as_bytes()).decode_utf8(alloc) {
        Ok(text) => {
            let text = text.into_owned(alloc)?;
            Ok(text)
        }
        Err(DecodeError::OutOfMemory) => Err(Fault::Memory),
        Err(DecodeError::Utf8(_)) => Err(Fault::Invalid(part)),
    }
}

fn segment_at(path: &str, place: usize) -> &str
    ensures { result.now ≡ definition.segment_at path.now place }
{
    let rest = after_slashes(after_slashes(path, 5), place);
    match rest.split_once('/') {
        Some((segment, _)) => segment,
        None => rest,
    }
}

// What stands after so many slashes, or nothing.
fn after_slashes(text: &str, count: usize) -> &str
    ensures { result.now ≡ definition.after_slashes count text.now }
{
    let mut rest = text;
    for _ in 0..count {
        rest = after_slash(rest);
    }
    rest
}

fn after_slash(text: &str) -> &str
    ensures { result.now ≡ after_first definition.is_slash text.now }
{
    match text.split_once('/') {
        Some((_, rest)) => rest,
        None => "",
    }
}
