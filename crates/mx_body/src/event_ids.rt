// Lists of event ids.
ghost use Rattle.std.specs.Prelude.{◌≡◌, ◌<◌, ◌≤◌, IfOk, IsErrOf, IsUtf8, OnOk, length, None, Some};
ghost use Rattle.json.specs.Json.{value, items, parse_map};
ghost use Rattle.serde_json.specs.Data.{array};
ghost use Rattle.serde_json.specs.Read.{of_json, of_items, converted};
ghost use Rattle.mx_body.specs.Questions.{ReadsId, ReadsIds, added, id_of_text, ids_shown};

use crate::errors::BodyError;
use crate::reading::{MAX_DEPTH, read_from};
use json::{Reader, Token};
use mx_ident::{EventId, IdError};
use std::alloc::{AllocError, Global};

/// The event ids in the next value; none where it is no array of them. It is the value of a member of the body's object.
///
/// `NotJson` where no value is next that nests at most 126 deep; `Memory`.
pub(crate) fn read_ids(
    alloc: Global,
    reader: &mut Reader<'_>,
) -> Result<Option<Vec<EventId>>, BodyError>
    ensures ok { IfOk result (λ ids. ReadsIds (ids_shown ids) (converted of_json (value 126 reader.old)) reader.new) }
    ensures shorter { OnOk result (length reader.new < length reader.old) }
    ensures err { IsErrOf result BodyError.NotJson → converted of_json (value 126 reader.old) ≡ None }
{
    let token = reader.next().ok_or(BodyError::NotJson)?;
    if let Token::BeginArray = token {
        return read_list(alloc, reader);
    }
    let _piece = read_from(alloc, reader, token, MAX_DEPTH - 1, 0)?;
    Ok(None)
}

fn read_list(alloc: Global, reader: &mut Reader<'_>) -> Result<Option<Vec<EventId>>, BodyError>
    ensures ok { IfOk result (λ ids. ReadsIds (ids_shown ids)
        (parse_map array (converted of_items (items (value 125) (length reader.old) reader.old))) reader.new) }
    ensures shorter { OnOk result (length reader.new ≤ length reader.old) }
    ensures err { IsErrOf result BodyError.NotJson
        → parse_map array (converted of_items (items (value 125) (length reader.old) reader.old)) ≡ None }
{
    let mut found = Some(Vec::new(alloc));
    'items: while !reader.take_end_array() {
        found = read_id(alloc, reader, found)?;
    }
    Ok(found)
}

// The ids with that of the next value; none where one of them is no id.
fn read_id(
    alloc: Global,
    reader: &mut Reader<'_>,
    found: Option<Vec<EventId>>,
) -> Result<Option<Vec<EventId>>, BodyError>
    ensures ok { IfOk result (λ ids.
        ReadsId (ids_shown found) (ids_shown ids) (converted of_json (value 125 reader.old)) reader.new) }
    ensures shorter { OnOk result (length reader.new < length reader.old) }
    ensures err { IsErrOf result BodyError.NotJson → converted of_json (value 125 reader.old) ≡ None }
{
    let token = reader.next().ok_or(BodyError::NotJson)?;
    if let Token::String(text) = token {
        let ids = with_id(alloc, found, text)?;
        return Ok(ids);
    }
    let _piece = read_from(alloc, reader, token, MAX_DEPTH - 2, 0)?;
    Ok(None)
}

fn with_id(
    alloc: Global,
    found: Option<Vec<EventId>>,
    text: &str,
) -> Result<Option<Vec<EventId>>, AllocError>
    ensures ids { IfOk result (λ ids. ids_shown ids ≡ added (ids_shown found) (id_of_text text.now)) }
    ensures utf8 { IsUtf8 text.now }
{
    let Some(mut ids) = found else {
        return Ok(None);
    };
    match EventId::parse(alloc, text) {
        Ok(id) => {
            ids.push(id)?;
            Ok(Some(ids))
        }
        Err(IdError::Memory) => Err(AllocError),
        Err(IdError::NotAnId(_)) => Ok(None),
    }
}
