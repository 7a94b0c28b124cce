// What a body asks about missing events.
ghost use Rattle.std.specs.Prelude.{◌≡◌, ◌<◌, ◌⊎◌, IfErr, IfOk, IsErrOf, IsUtf8, OnOk, length, None, Some, option_and_then, option_map};
ghost use Rattle.json.specs.Json.{value, members, parse_map};
ghost use Rattle.serde_json.specs.Data.{Data, no_members, object};
ghost use Rattle.serde_json.specs.Read.{of_json, of_members, converted, read as read_text};
ghost use Rattle.serde_json.specs.Find.{as_u64};
ghost use Rattle.mx_body.specs.Bodies.{json_of, question_of};
ghost use Rattle.mx_body.specs.Numbers.{num_of};
ghost use Rattle.mx_body.specs.Questions.{ReadsAll, ReadsAsked, ReadsNatural, ReadsQuestion, ReadsWhole, asked_question, question_shown};

use crate::errors::BodyError;
use crate::event_ids::read_ids;
use crate::numbers::{Numeric, parse};
use crate::reading::{MAX_DEPTH, read, read_from};
use json::{Reader, Scratch, Token};
use mx_ident::EventId;
use std::alloc::Global;

/// What a body asks about missing events: which follow the earliest and precede the latest, how many at most, and from
/// which depth on.
///
/// Source: the Matrix specification, Server-Server API, `POST /_matrix/federation/v1/get_missing_events/{roomId}`.
#[derive(Debug, Drop)]
pub struct MissingQuestion {
    pub earliest: Vec<EventId>,
    pub latest: Vec<EventId>,
    pub limit: u64,
    pub min_depth: u64,
}

/// What the members of a question that were read ask, each where it is of its kind.
#[derive(Drop)]
pub(crate) struct Asked {
    pub(crate) earliest: Option<Vec<EventId>>,
    pub(crate) latest: Option<Vec<EventId>>,
    pub(crate) limit: Option<u64>,
    pub(crate) min_depth: Option<u64>,
}

/// What a body asks about missing events; none where it is no object, or a member of it that is read is of a wrong kind.
/// No value is made: the memory is a few times the length of the body, and that of the ids. The scratch is kept from body
/// to body.
///
/// An absent list is empty, an absent `limit` 10, an absent `min_depth` 0. `NotJson` where the body is not UTF-8, or no
/// JSON, or nests deeper than 127; `Memory`. Source: the Matrix specification, Server-Server API,
/// `POST /_matrix/federation/v1/get_missing_events/{roomId}`.
pub fn missing_question(
    alloc: Global,
    scratch: &mut Scratch,
    body: &[u8],
) -> Result<Option<MissingQuestion>, BodyError>
    ensures ok { IfOk result (λ question. (d : Data) × (json_of body.now ≡ Some d)
        × (option_map question_shown question ≡ question_of d)) }
    ensures err { IfErr result (λ e. (e ≡ BodyError.Memory)
        ⊎ ((e ≡ BodyError.NotJson) × (json_of body.now ≡ None))) }
{
    let text = match str::from_utf8(body) {
        Ok(text) => text,
        Err(_) => return Err(BodyError::NotJson),
    };
    let question = read_whole(alloc, text, scratch)?;
    Ok(question)
}

fn read_whole(
    alloc: Global,
    text: &str,
    scratch: &mut Scratch,
) -> Result<Option<MissingQuestion>, BodyError>
    ensures ok { IfOk result (λ question. ReadsWhole (option_map question_shown question) (read_text text.now)) }
    ensures err { IsErrOf result BodyError.NotJson → read_text text.now ≡ None }
{
    let Ok(mut reader) = Reader::new(text, scratch) else {
        return Err(BodyError::Memory);
    };
    let question = read_question(alloc, &mut reader)?;
    if reader.next().is_some() {
        return Err(BodyError::NotJson);
    }
    Ok(question)
}

fn read_question(
    alloc: Global,
    reader: &mut Reader<'_>,
) -> Result<Option<MissingQuestion>, BodyError>
    ensures ok { IfOk result (λ question.
        ReadsQuestion (option_map question_shown question) (converted of_json (value 127 reader.old)) reader.new) }
    ensures err { IsErrOf result BodyError.NotJson → converted of_json (value 127 reader.old) ≡ None }
{
    let token = reader.next().ok_or(BodyError::NotJson)?;
    if let Token::BeginObject = token {
        let asked = read_asked(alloc, reader)?;
        return Ok(question_in(asked));
    }
    let _piece = read_from(alloc, reader, token, MAX_DEPTH, 0)?;
    Ok(None)
}

fn question_in(asked: Asked) -> Option<MissingQuestion>
    ensures { option_map question_shown result ≡ asked_question asked }
{
    let Asked {
        earliest,
        latest,
        limit,
        min_depth,
    } = asked;
    match (earliest, latest, limit, min_depth) {
        (Some(earliest), Some(latest), Some(limit), Some(min_depth)) => Some(MissingQuestion {
            earliest,
            latest,
            limit,
            min_depth,
        }),
        _ => None,
    }
}

fn read_asked(alloc: Global, reader: &mut Reader<'_>) -> Result<Asked, BodyError>
    ensures ok { IfOk result (λ asked. ReadsAll asked (parse_map object
        (converted (λ ms. of_members ms no_members) (members (value 126) (length reader.old) reader.old))) reader.new) }
    ensures err { IsErrOf result BodyError.NotJson → parse_map object
        (converted (λ ms. of_members ms no_members) (members (value 126) (length reader.old) reader.old)) ≡ None }
{
    let mut asked = Asked {
        earliest: Some(Vec::new(alloc)),
        latest: Some(Vec::new(alloc)),
        limit: Some(10),
        min_depth: Some(0),
    };
    'members: while let Some(key) = reader.next_key()? {
        asked = read_member(alloc, reader, key, asked)?;
    }
    Ok(asked)
}

// The value of one member more, which takes the place of one with its key.
fn read_member(
    alloc: Global,
    reader: &mut Reader<'_>,
    key: &str,
    asked: Asked,
) -> Result<Asked, BodyError>
    ensures ok { IfOk result (λ after.
        ReadsAsked key.now asked after (converted of_json (value 126 reader.old)) reader.new) }
    ensures shorter { OnOk result (length reader.new < length reader.old) }
    ensures utf8 { IsUtf8 key.now }
    ensures err { IsErrOf result BodyError.NotJson → converted of_json (value 126 reader.old) ≡ None }
{
    if key == "earliest_events" {
        let earliest = read_ids(alloc, reader)?;
        return Ok(Asked { earliest, ..asked });
    }
    if key == "latest_events" {
        let latest = read_ids(alloc, reader)?;
        return Ok(Asked { latest, ..asked });
    }
    if key == "limit" {
        let limit = read_natural(alloc, reader)?;
        return Ok(Asked { limit, ..asked });
    }
    if key == "min_depth" {
        let min_depth = read_natural(alloc, reader)?;
        return Ok(Asked { min_depth, ..asked });
    }
    let _piece = read(alloc, reader, MAX_DEPTH - 1, 0)?;
    Ok(asked)
}

// The integer, from 0, that the next value is; none where it is another value.
fn read_natural(alloc: Global, reader: &mut Reader<'_>) -> Result<Option<u64>, BodyError>
    ensures ok { IfOk result (λ natural.
        ReadsNatural natural (converted of_json (value 126 reader.old)) reader.new) }
    ensures shorter { OnOk result (length reader.new < length reader.old) }
    ensures err { IsErrOf result BodyError.NotJson → converted of_json (value 126 reader.old) ≡ None }
{
    let token = reader.next().ok_or(BodyError::NotJson)?;
    if let Token::Number(text) = token {
        let Some(number) = parse(text) else {
            return Err(BodyError::NotJson);
        };
        return Ok(natural_in(number));
    }
    let _piece = read_from(alloc, reader, token, MAX_DEPTH - 1, 0)?;
    Ok(None)
}

fn natural_in(number: Numeric) -> Option<u64>
    ensures { result ≡ as_u64 (num_of number) }
{
    match number {
        Numeric::Natural(natural) => Some(natural),
        _ => None,
    }
}
