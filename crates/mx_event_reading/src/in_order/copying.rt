// A value's tokens, given to a writer as they are read.
ghost use Rattle.std.specs.Prelude.{◌≡◌, ◌<◌, ◌≤◌, length, IsTrue, IsUtf8, OnOk, [], ◌∷◌, option_map};
ghost use Rattle.json.specs.Json.{value, items, members, parse_map};
ghost use Rattle.json.specs.Token.{string};
ghost use Rattle.json.specs.Tree.{json_tokens, items_tokens, members_tokens};
ghost use Rattle.serde_json.specs.Data.{Data, Items, Members, array, object, no_members, number as number_data};
ghost use Rattle.serde_json.specs.Find.{of_integer};
ghost use Rattle.serde_json.specs.Read.{of_json, of_items, of_members, converted};
ghost use Rattle.serde_json.specs.Written.{outline, items_outline, members_outline};
ghost use Rattle.mx_event_reading.specs.InOrder.{IsAbove, ReadsCanonical, WritesTokens};

use super::AppendError;
use crate::numbers::exact_integer;
use json::{Reader, Token, Writer};
use std::alloc::AllocError;

/// Gives the writer the tokens of the next value, where they come in canonical order.
#[cycle(copy_value)]
pub(super) fn copy_value(
    reader: &mut Reader<'_>,
    depth: usize,
    writer: &mut Writer,
) -> Result<(), AppendError>
    ensures ok { OnOk result ((d : Data)
        × ReadsCanonical d (converted of_json (value depth reader.old)) reader.new
        × WritesTokens writer.old writer.new (json_tokens (outline d))) }
    ensures shorter { OnOk result (length reader.new < length reader.old) }
{
    let token = reader.next().ok_or(AppendError::NotInOrder)?;
    match token {
        Token::String(text) => Ok(copy_string(text, writer)?),
        Token::Number(text) => match exact_integer(text) {
            Some(integer) => Ok(copy_integer(integer, writer)?),
            None => Err(AppendError::NotInOrder),
        },
        Token::Bool(is_true) => Ok(writer.boolean(is_true)?),
        Token::Null => Ok(writer.null()?),
        Token::EndObject | Token::EndArray | Token::Key(_) | Token::Bad => Err(
            AppendError::NotInOrder,
        ),
        Token::BeginArray => {
            if depth == 0 {
                return Err(AppendError::NotInOrder);
            }
            writer.begin_array()?;
            copy_items(reader, depth - 1, writer)
        }
        Token::BeginObject => {
            if depth == 0 {
                return Err(AppendError::NotInOrder);
            }
            writer.begin_object()?;
            copy_members(reader, depth - 1, writer)
        }
    }
}

fn copy_string(text: &str, writer: &mut Writer) -> Result<(), AllocError>
    ensures tokens { OnOk result (WritesTokens writer.old writer.new (string text.now ∷ [])) }
    ensures utf8 { IsUtf8 text.now }
{
    writer.string(text)
}

fn copy_integer(integer: i64, writer: &mut Writer) -> Result<(), AllocError>
    ensures { OnOk result
        (WritesTokens writer.old writer.new (json_tokens (outline (number_data (of_integer integer))))) }
{
    writer.i64(integer)
}

#[cycle(copy_value)]
fn copy_items(reader: &mut Reader<'_>, depth: usize, writer: &mut Writer) -> Result<(), AppendError>
    ensures ok { OnOk result ((ds : Items)
        × ReadsCanonical (array ds)
        (parse_map array (converted of_items (items (value depth) (length reader.old) reader.old))) reader.new
        × WritesTokens writer.old writer.new (items_tokens (items_outline ds))) }
    ensures shorter { OnOk result (length reader.new ≤ length reader.old) }
{
    'items: while !reader.take_end_array() {
        copy_value(reader, depth, writer)?;
    }
    writer.end_array()?;
    Ok(())
}

#[cycle(copy_value)]
fn copy_members(
    reader: &mut Reader<'_>,
    depth: usize,
    writer: &mut Writer,
) -> Result<(), AppendError>
    ensures ok { OnOk result ((ms : Members)
        × ReadsCanonical (object ms) (parse_map object (converted (λ ms. of_members ms no_members)
        (members (value depth) (length reader.old) reader.old))) reader.new
        × WritesTokens writer.old writer.new (members_tokens (members_outline ms))) }
    ensures shorter { OnOk result (length reader.new ≤ length reader.old) }
{
    let mut last = None;
    'members: while let Some(key) = reader.next_key()? {
        if !is_above(key, last) {
            return Err(AppendError::NotInOrder);
        }
        writer.key(key)?;
        copy_value(reader, depth, writer)?;
        last = Some(key);
    }
    writer.end_object()?;
    Ok(())
}

/// Whether a key stands behind the one that came before it, where one did, in the order of canonical JSON.
pub fn is_above(key: &str, last: Option<&str>) -> bool
    ensures above { IsTrue result → IsAbove key.now (option_map (λ s. s.now) last.entry) }
    ensures utf8 { IsUtf8 key.now }
{
    match last {
        Some(last) => last < key,
        None => true,
    }
}
