// A value's tokens, read to its canonical text.
ghost use Rattle.std.specs.Prelude.{◌≡◌, ◌<◌, ◌≤◌, ◌∷◌, length, IfOk, IsErrOf, OnOk, None, Some};
ghost use Rattle.json.specs.Json.{value, items, members, parse_map};
ghost use Rattle.json.specs.Reads.{token_of};
ghost use Rattle.serde_json.specs.Data.{array, object, no_members};
ghost use Rattle.serde_json.specs.Read.{of_json, of_items, of_members, converted};
ghost use Rattle.mx_body.specs.Bodies.{bytes_of};
ghost use Rattle.mx_body.specs.Pieces.{ReadsPiece};

use crate::errors::BodyError;
use crate::members::{no_kept, object_piece, room_beside, with_member};
use crate::numbers::{number_piece, parse};
use crate::pieces::{bool_piece, closed, fitting, null_piece, room_after, string_piece, with_item};
use json::{Reader, Token};
use std::alloc::Global;

/// How deep arrays and objects of a body may nest.
pub const MAX_DEPTH: usize = 127;

/// The canonical text of the next value, where it has one that may fit. The rest of a value is read in any case.
///
/// `NotJson` where no value that nests at most so deep is next; `Memory`.
#[cycle(read)]
pub(crate) fn read(
    alloc: Global,
    reader: &mut Reader<'_>,
    depth: usize,
    room: usize,
) -> Result<Option<Vec<u8>>, BodyError>
    ensures ok { IfOk result (λ piece.
        ReadsPiece room (converted of_json (value depth reader.old)) reader.new (bytes_of piece)) }
    ensures shorter { OnOk result (length reader.new < length reader.old) }
    ensures err { IsErrOf result BodyError.NotJson → converted of_json (value depth reader.old) ≡ None }
{
    let token = reader.next().ok_or(BodyError::NotJson)?;
    read_from(alloc, reader, token, depth, room)
}

/// The same of a value whose first token was read.
#[cycle(read)]
pub(crate) fn read_from(
    alloc: Global,
    reader: &mut Reader<'_>,
    token: Token<'_>,
    depth: usize,
    room: usize,
) -> Result<Option<Vec<u8>>, BodyError>
    ensures ok { IfOk result (λ piece. ReadsPiece room
        (converted of_json (value depth (token_of token.entry ∷ reader.old))) reader.new (bytes_of piece)) }
    ensures shorter { OnOk result (length reader.new ≤ length reader.old) }
    ensures err { IsErrOf result BodyError.NotJson
        → converted of_json (value depth (token_of token.entry ∷ reader.old)) ≡ None }
{
    match token {
        Token::String(text) => Ok(string_piece(alloc, text, room)?),
        Token::Number(text) => match parse(text) {
            Some(number) => Ok(number_piece(alloc, number, room)?),
            None => Err(BodyError::NotJson),
        },
        Token::Bool(is_true) => Ok(bool_piece(alloc, is_true, room)?),
        Token::Null => Ok(null_piece(alloc, room)?),
        Token::EndObject | Token::EndArray | Token::Key(_) | Token::Bad => Err(BodyError::NotJson),
        Token::BeginArray => {
            if depth == 0 {
                return Err(BodyError::NotJson);
            }
            read_items(alloc, reader, depth - 1, room)
        }
        Token::BeginObject => {
            if depth == 0 {
                return Err(BodyError::NotJson);
            }
            read_members(alloc, reader, depth - 1, room)
        }
    }
}

#[cycle(read)]
fn read_items(
    alloc: Global,
    reader: &mut Reader<'_>,
    depth: usize,
    room: usize,
) -> Result<Option<Vec<u8>>, BodyError>
    ensures ok { IfOk result (λ piece. ReadsPiece room
        (parse_map array (converted of_items (items (value depth) (length reader.old) reader.old)))
        reader.new (bytes_of piece)) }
    ensures shorter { OnOk result (length reader.new ≤ length reader.old) }
    ensures err { IsErrOf result BodyError.NotJson
        → parse_map array (converted of_items (items (value depth) (length reader.old) reader.old)) ≡ None }
{
    let mut text = fitting(alloc, b"[", room)?;
    let mut later = false;
    'items: while !reader.take_end_array() {
        let left = room_after(&text, room);
        let item = read(alloc, reader, depth, left)?;
        text = with_item(text, later, item, room)?;
        later = true;
    }
    let all = closed(text)?;
    Ok(all)
}

#[cycle(read)]
fn read_members(
    alloc: Global,
    reader: &mut Reader<'_>,
    depth: usize,
    room: usize,
) -> Result<Option<Vec<u8>>, BodyError>
    ensures ok { IfOk result (λ piece. ReadsPiece room (parse_map object
        (converted (λ ms. of_members ms no_members) (members (value depth) (length reader.old) reader.old)))
        reader.new (bytes_of piece)) }
    ensures shorter { OnOk result (length reader.new ≤ length reader.old) }
    ensures err { IsErrOf result BodyError.NotJson → parse_map object
        (converted (λ ms. of_members ms no_members) (members (value depth) (length reader.old) reader.old)) ≡ None }
{
    let mut found = no_kept(alloc, room);
    'members: while let Some(key) = reader.next_key()? {
        let left = room_beside(&found, room);
        let member = read(alloc, reader, depth, left)?;
        found = with_member(alloc, found, key, member, room)?;
    }
    let text = object_piece(alloc, found, room)?;
    Ok(text)
}
