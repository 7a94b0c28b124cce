// The JSON value that a body is.
ghost use Rattle.std.specs.Prelude.{◌≡◌, ◌<◌, ◌⊎◌, length, IfErr, IfOk, IsErrOf, OnOk, None, Some};
ghost use Rattle.json.specs.Json.{value, items, members};
ghost use Rattle.serde_json.specs.Data.{no_members};
ghost use Rattle.serde_json.specs.Read.{of_json, of_items, of_members, converted, read as read_text};
ghost use Rattle.serde_json.specs.View.{view, items_view, members_view};
ghost use Rattle.mx_body.specs.Bodies.{json_of};

use crate::errors::BodyError;
use crate::numbers::number_value;
use crate::reading::MAX_DEPTH;
use json::{Reader, Scratch, Token};
use serde_json::{Map, Value};
use std::alloc::Global;

/// The value that a body is JSON for, as serde_json reads it. Of a key that is repeated the last value stays. The scratch is
/// kept from body to body, since making one fills 16 KiB.
///
/// `NotJson` where the body is not UTF-8, or no JSON, or nests deeper than 127; `Memory`. Source: the Matrix
/// specification, Server-Server API, "API standards".
pub fn body_value(alloc: Global, scratch: &mut Scratch, body: &[u8]) -> Result<Value, BodyError>
    ensures ok { IfOk result (λ value. json_of body.now ≡ Some (view value)) }
    ensures err { IfErr result (λ e. (e ≡ BodyError.Memory)
        ⊎ ((e ≡ BodyError.NotJson) × (json_of body.now ≡ None))) }
{
    let text = match str::from_utf8(body) {
        Ok(text) => text,
        Err(_) => return Err(BodyError::NotJson),
    };
    let value = read_whole(alloc, scratch, text)?;
    Ok(value)
}

fn read_whole(alloc: Global, scratch: &mut Scratch, text: &str) -> Result<Value, BodyError>
    ensures ok { IfOk result (λ value. read_text text.now ≡ Some (view value)) }
    ensures err { IsErrOf result BodyError.NotJson → read_text text.now ≡ None }
{
    let Ok(mut reader) = Reader::new(text, scratch) else {
        return Err(BodyError::Memory);
    };
    let value = read_value(alloc, &mut reader, MAX_DEPTH)?;
    if reader.next().is_some() {
        return Err(BodyError::NotJson);
    }
    Ok(value)
}

/// The next value of a reader, as [`body_value`] reads it.
///
/// `NotJson` where none is next whose arrays and objects nest at most so deep; `Memory`. Source: the Matrix specification,
/// Server-Server API, "API standards".
#[cycle(read_value)]
pub fn read_value(alloc: Global, reader: &mut Reader<'_>, depth: usize) -> Result<Value, BodyError>
    ensures ok { IfOk result (λ v.
        converted of_json (value depth reader.old) ≡ Some (view v, reader.new)) }
    ensures shorter { OnOk result (length reader.new < length reader.old) }
    ensures err { IsErrOf result BodyError.NotJson → converted of_json (value depth reader.old) ≡ None }
{
    let token = reader.next().ok_or(BodyError::NotJson)?;
    match token {
        Token::String(text) => Ok(Value::String(String::from_str(alloc, text)?)),
        Token::Number(text) => match number_value(text) {
            Some(number) => Ok(number),
            None => Err(BodyError::NotJson),
        },
        Token::Bool(is_true) => Ok(Value::Bool(is_true)),
        Token::Null => Ok(Value::Null),
        Token::EndObject | Token::EndArray | Token::Key(_) | Token::Bad => Err(BodyError::NotJson),
        Token::BeginArray => {
            if depth == 0 {
                return Err(BodyError::NotJson);
            }
            Ok(Value::Array(read_items(alloc, reader, depth - 1)?))
        }
        Token::BeginObject => {
            if depth == 0 {
                return Err(BodyError::NotJson);
            }
            Ok(Value::Object(read_members(alloc, reader, depth - 1)?))
        }
    }
}

#[cycle(read_value)]
fn read_items(alloc: Global, reader: &mut Reader<'_>, depth: usize) -> Result<Vec<Value>, BodyError>
    ensures ok { IfOk result (λ vs. converted of_items (items (value depth) (length reader.old) reader.old)
        ≡ Some (items_view vs.items, reader.new)) }
    ensures shorter { OnOk result (length reader.new < length reader.old) }
    ensures err { IsErrOf result BodyError.NotJson
        → converted of_items (items (value depth) (length reader.old) reader.old) ≡ None }
{
    let mut found = Vec::new(alloc);
    'items: while !reader.take_end_array() {
        let item = read_value(alloc, reader, depth)?;
        found.push(item)?;
    }
    Ok(found)
}

#[cycle(read_value)]
fn read_members(
    alloc: Global,
    reader: &mut Reader<'_>,
    depth: usize,
) -> Result<Map<String, Value>, BodyError>
    ensures ok { IfOk result (λ ms.
        converted (λ ms. of_members ms no_members) (members (value depth) (length reader.old) reader.old)
        ≡ Some (members_view ms.entries, reader.new)) }
    ensures shorter { OnOk result (length reader.new < length reader.old) }
    ensures err { IsErrOf result BodyError.NotJson
        → converted (λ ms. of_members ms no_members) (members (value depth) (length reader.old) reader.old) ≡ None }
{
    let mut found = Map::new(alloc);
    'members: while let Some(name) = reader.next_key()? {
        let key = String::from_str(alloc, name)?;
        let member = read_value(alloc, reader, depth)?;
        drop(found.insert(key, member)?);
    }
    Ok(found)
}
