// The canonical text of what a body holds.
ghost use Rattle.std.specs.Prelude.{◌≡◌, ◌⊎◌, IfErr, IfOk, IfSome, IsErrOf, None, Some};
ghost use Rattle.serde_json.specs.Data.{Data};
ghost use Rattle.serde_json.specs.Read.{read as read_text};
ghost use Rattle.mx_body.specs.Bodies.{bytes_of, json_of, text_within};
ghost use Rattle.mx_body.specs.Pieces.{ReadsText};

use crate::errors::BodyError;
use crate::pieces::within;
use crate::reading::{MAX_DEPTH, read};
use json::{Reader, Scratch};
use std::alloc::Global;

/// The canonical text of the value that a body is JSON for, where it has one of at most `largest` bytes. The value is
/// not made: the memory is a few times the length of the body, and a few times `largest`. The scratch is kept from body to
/// body.
///
/// `NotJson` where the body is not UTF-8, or no JSON, or nests deeper than 127; `Memory`. Source: the Matrix
/// specification, Server-Server API, "API standards", and the appendix "Canonical JSON".
pub fn event_text(
    alloc: Global,
    scratch: &mut Scratch,
    body: &[u8],
    largest: usize,
) -> Result<Option<Vec<u8>>, BodyError>
    ensures ok { IfOk result (λ text.
        (d : Data) × (json_of body.now ≡ Some d) × (bytes_of text ≡ text_within largest d)) }
    // The text is JSON for the same value.
    ensures reads_back { IfOk result (λ text. IfSome text (λ bytes. json_of bytes.items ≡ json_of body.now)) }
    ensures err { IfErr result (λ e. (e ≡ BodyError.Memory)
        ⊎ ((e ≡ BodyError.NotJson) × (json_of body.now ≡ None))) }
{
    let text = match str::from_utf8(body) {
        Ok(text) => text,
        Err(_) => return Err(BodyError::NotJson),
    };
    let piece = read_whole(alloc, text, scratch, largest)?;
    Ok(within(piece, largest))
}

fn read_whole(
    alloc: Global,
    text: &str,
    scratch: &mut Scratch,
    largest: usize,
) -> Result<Option<Vec<u8>>, BodyError>
    ensures ok { IfOk result (λ piece. ReadsText largest (read_text text.now) (bytes_of piece)) }
    ensures err { IsErrOf result BodyError.NotJson → read_text text.now ≡ None }
{
    let Ok(mut reader) = Reader::new(text, scratch) else {
        return Err(BodyError::Memory);
    };
    let piece = read(alloc, &mut reader, MAX_DEPTH, largest)?;
    if reader.next().is_some() {
        return Err(BodyError::NotJson);
    }
    Ok(piece)
}
