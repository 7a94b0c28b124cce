// `check`: one event, from its bytes to its id.
ghost use Rattle.std.specs.Prelude.{◌≡◌, ◌≤◌, ◌↔◌, Err, IfErr, IfOk, IsErrOf, None, Some, false, string_bytes, true};
ghost use Rattle.serde_json.specs.Data.{Data, depth};
ghost use Rattle.serde_json.specs.Read.{max_depth, read as read_text};
ghost use Rattle.serde_json.specs.View.{view};
ghost use Rattle.mx_canon.specs.Canonical.{canonical_error, canonical_text};
ghost use Rattle.mx_canon.specs.KeyOrder.{KeysRise};
ghost use Rattle.mx_canon.specs.Reading.{IsJsonFor};
ghost use Rattle.mx_canon.specs.declared.checking.NotCanonical.{NotCanonical as Unwritable};
ghost use Rattle.mx_redact.specs.Hashes.{event_id, hash_holds};
ghost use Rattle.mx_pdu.specs.Format.{format_error};
ghost use Rattle.mx_pdu.specs.declared.refusals.NotAnEvent.{NotAnEvent as Malformed};

use crate::explanations::explanation;
use crate::output::{Failure, FailureAbout, lines_of, write_to};
use mx_canon::{NotCanonical, ReadError, read, text_of_canonical};
use mx_ident::EventId;
use mx_log::read_all;
use mx_options::CheckOptions;
use mx_pdu::{NotAnEvent, Pdu, PduError};
use serde_json::Value;
use std::alloc::{AllocError, Global};
use std::io::{Read, Write};
use thiserror::Error;

/// Why an event was not checked. Of several causes the first in this order is given.
#[derive(Clone, Copy, Debug, PartialEq, Eq, Drop, Error)]
pub enum CheckError {
    #[error("memory")]
    Memory,
    #[error("refused: not JSON")]
    NotJson,
    #[error("refused: not canonical")]
    NotCanonical(NotCanonical),
    #[error("refused: {0}")]
    NotAnEvent(NotAnEvent),
}

impl From<ReadError> for CheckError {
    ghost use Rattle.mx_commands.specs.CheckErrors.{of_reading};

    ghost from_gives = { λ cause e. e ≡ of_reading cause };

    fn from(error: ReadError) -> CheckError {
        match error {
            ReadError::Memory => CheckError::Memory,
            ReadError::NotJson => CheckError::NotJson,
            ReadError::NotCanonical(cause) => CheckError::NotCanonical(cause),
        }
    }
}

impl From<AllocError> for CheckError {
    ghost use Rattle.mx_commands.specs.declared.checking.CheckError.TheVariants as variants;

    ghost from_gives = { λ _ e. e ≡ variants.Memory };

    fn from(_refused: AllocError) -> CheckError {
        CheckError::Memory
    }
}

/// What is told about an event.
#[derive(Debug, Drop)]
pub struct Checked {
    pub id: EventId,
    pub event: Pdu,
}

/// Reads one event from the input, and writes its three lines: its id, whether its content hash holds, and its canonical
/// text.
///
/// `Check` as [`check_event`] refuses the event, where that is asked for with the field that has a fault. `BadHash` where a
/// content hash has to hold and does not: the lines are written before. `Memory` where none is left for what is read or written,
/// and `ReadOrWrite` where a read or a write fails.
pub fn check<R: Read, W: Write>(
    alloc: Global,
    options: CheckOptions,
    input: &mut R,
    out: &mut W,
) -> Result<(), FailureAbout> {
    let bytes = read_all(alloc, input).map_err(Failure::from)?;
    let checked = match check_event(alloc, &bytes) {
        Ok(checked) => checked,
        Err(refused) if options.explains => return Err(explained(alloc, refused, &bytes)),
        Err(refused) => return Err(FailureAbout::from(Failure::from(refused))),
    };
    let lines = lines_of(alloc, &checked)?;
    write_to(out, &lines)?;
    hash_failure(options, &checked)?;
    Ok(())
}

// Why an event was not checked, with what keeps it from being one. Where no memory is left for that, it is left out.
fn explained(alloc: Global, refused: CheckError, bytes: &[u8]) -> FailureAbout
    ensures { result.failure ≡ Failure.Check refused }
{
    let cause = match refused {
        CheckError::NotCanonical(_) | CheckError::NotAnEvent(_) => {
            explanation(alloc, bytes).unwrap_or(None)
        }
        _ => None,
    };
    FailureAbout {
        failure: Failure::Check(refused),
        cause,
    }
}

// Refuses an event whose content hash has to hold and does not.
fn hash_failure(options: CheckOptions, checked: &Checked) -> Result<(), Failure>
    ensures bad { (result ≡ Err Failure.BadHash)
        ↔ ((options.is_strict ≡ true) × (hash_holds checked.now.event ≡ false)) }
    ensures only { IfErr result (λ failure. failure ≡ Failure.BadHash) }
{
    if options.is_strict && !checked.event.hash_holds() {
        return Err(Failure::BadHash);
    }
    Ok(())
}

/// Reads one event: its id, and the event, which tells whether its content hash holds, and its canonical text.
///
/// `NotJson` and `NotCanonical` as `mx_canon::read` gives them, `NotAnEvent` as `Pdu::from_value` does. Source: the
/// Matrix specification, Room Version 6, "Event format", and Server-Server API, "Signing events".
pub fn check_event(alloc: Global, bytes: &[u8]) -> Result<Checked, CheckError>
    ensures ok { IfOk result (λ checked. IsJsonFor checked.event bytes.now × (checked.id ≡ event_id checked.event)) }
    ensures not_json { IsErrOf result CheckError.NotJson → (d : Data) → ¬ IsJsonFor d bytes.now }
    ensures not_canonical { (cause : Unwritable) → IsErrOf result (CheckError.NotCanonical cause)
        → (d : Data) × IsJsonFor d bytes.now × (canonical_error d ≡ Some cause) }
    ensures not_an_event { (cause : Malformed) → IsErrOf result (CheckError.NotAnEvent cause)
        → (d : Data) × IsJsonFor d bytes.now × (format_error d ≡ Some cause) }
{
    let value = read(alloc, bytes)?;
    let text = written(alloc, &value)?;
    match Pdu::from_canonical(alloc, value, text) {
        Ok(event) => {
            let id = event.event_id(alloc)?;
            Ok(Checked { id, event })
        }
        Err(PduError::Memory) => Err(CheckError::Memory),
        Err(PduError::NotAnEvent(cause)) => Err(CheckError::NotAnEvent(cause)),
    }
}

// The canonical text of a value that has one.
fn written(alloc: Global, value: &Value) -> Result<String, AllocError>
    requires canonical { canonical_error (view value.now) ≡ None }
    requires keys { KeysRise (view value.now) }
    ensures text { IfOk result (λ text. string_bytes text ≡ canonical_text (view value.now)) }
    ensures reads { IfOk result (λ text. depth (view value.now) ≤ max_depth
        → read_text (string_bytes text) ≡ Some (view value.now)) }
{
    let bytes = text_of_canonical(alloc, value)?;
    match String::from_utf8(bytes) {
        Ok(text) => Ok(text),
        Err(_) => unreachable!(),
    }
}
