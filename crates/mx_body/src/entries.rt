// The texts of the entries of an array.
ghost use Rattle.std.specs.Prelude.{◌≡◌, ◌<◌, ◌≤◌, ◌++◌, ◌∷◌, [], List, IfOk, IsErrOf, OnOk, length, None, Some};
ghost use Rattle.json.specs.Json.{value, items, parse_map};
ghost use Rattle.serde_json.specs.Data.{Data, array};
ghost use Rattle.serde_json.specs.Read.{of_json, of_items, converted};
ghost use Rattle.mx_body.specs.Bodies.{bytes_of, texts_of};
ghost use Rattle.mx_body.specs.Pieces.{IsPieceOf};
ghost use Rattle.mx_body.specs.Readable.{IsReadable};
ghost use Rattle.mx_body.specs.Transactions as definition;
ghost use Rattle.mx_body.specs.Transactions.{AreEntries, ReadsEntries, listed, texts_in};

use crate::errors::BodyError;
use crate::pieces::within;
use crate::reading::{MAX_DEPTH, read, read_from};
use json::{Reader, Token};
use std::alloc::{AllocError, Global};

/// The entries of an array so far: how many they are, and the texts of those that have one that fits.
#[derive(Drop)]
pub(crate) struct Entries {
    pub(crate) texts: Vec<Vec<u8>>,
    pub(crate) count: usize,
}

/// The canonical texts of the entries of the next value, of those that have one of at most `largest` bytes; none where
/// the value is no array of at most so many. It is the value of a member of the body's object.
///
/// `NotJson` where no value is next that nests at most 126 deep; `Memory`.
pub(crate) fn read_array(
    alloc: Global,
    reader: &mut Reader<'_>,
    most: usize,
    largest: usize,
) -> Result<Option<Vec<Vec<u8>>>, BodyError>
    ensures ok { IfOk result (λ texts.
        ReadsEntries most largest (converted of_json (value 126 reader.old)) reader.new (texts_in texts)) }
    ensures shorter { OnOk result (length reader.new < length reader.old) }
    ensures err { IsErrOf result BodyError.NotJson → converted of_json (value 126 reader.old) ≡ None }
{
    let token = reader.next().ok_or(BodyError::NotJson)?;
    if let Token::BeginArray = token {
        return read_entries(alloc, reader, most, largest);
    }
    let _piece = read_from(alloc, reader, token, MAX_DEPTH - 1, 0)?;
    Ok(None)
}

fn read_entries(
    alloc: Global,
    reader: &mut Reader<'_>,
    most: usize,
    largest: usize,
) -> Result<Option<Vec<Vec<u8>>>, BodyError>
    ensures ok { IfOk result (λ texts. ReadsEntries most largest
        (parse_map array (converted of_items (items (value 125) (length reader.old) reader.old)))
        reader.new (texts_in texts)) }
    ensures shorter { OnOk result (length reader.new ≤ length reader.old) }
    ensures err { IsErrOf result BodyError.NotJson
        → parse_map array (converted of_items (items (value 125) (length reader.old) reader.old)) ≡ None }
{
    let mut found = Some(Entries {
        texts: Vec::new(alloc),
        count: 0,
    });
    'items: while !reader.take_end_array() {
        let room = entry_room(&found, largest);
        let piece = read(alloc, reader, MAX_DEPTH - 2, room)?;
        found = with_entry(found, piece, most, largest)?;
    }
    Ok(texts_among(found))
}

// The room for one entry more.
fn entry_room(found: &Option<Entries>, largest: usize) -> usize
    ensures { result ≡ definition.entry_room found.now largest }
{
    match found {
        Some(_) => largest,
        None => 0,
    }
}

// The entries with one more; none where they are too many.
fn with_entry(
    found: Option<Entries>,
    piece: Option<Vec<u8>>,
    most: usize,
    largest: usize,
) -> Result<Option<Entries>, AllocError>
    ensures { IfOk result (λ all. (ds : List Data) (d : Data) → AreEntries most largest ds found
        → IsPieceOf (definition.entry_room found largest) d (bytes_of piece) → IsReadable d
        → AreEntries most largest (ds ++ d ∷ []) all) }
{
    let Some(entries) = found else {
        return Ok(None);
    };
    let Entries { mut texts, count } = entries;
    if count >= most {
        return Ok(None);
    }
    push_text(&mut texts, within(piece, largest))?;
    Ok(Some(Entries {
        texts,
        count: count + 1,
    }))
}

fn push_text(texts: &mut Vec<Vec<u8>>, text: Option<Vec<u8>>) -> Result<(), AllocError>
    ensures { OnOk result (texts_of texts.new.items ≡ texts_of texts.old.items ++ listed (bytes_of text)) }
{
    if let Some(text) = text {
        texts.push(text)?;
    }
    Ok(())
}

fn texts_among(found: Option<Entries>) -> Option<Vec<Vec<u8>>>
    ensures { texts_in result ≡ definition.entry_texts found }
{
    match found {
        Some(entries) => Some(entries.texts),
        None => None,
    }
}
