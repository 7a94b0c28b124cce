// The texts of the events that a transaction's body holds.
ghost use Rattle.std.specs.Prelude.{◌≡◌, ◌<◌, ◌≤◌, ◌⊎◌, IfErr, IfOk, IsErrOf, IsUtf8, OnOk, filter, length, map, if◌then◌else◌, None, Some, option_map};
ghost use Rattle.json.specs.Json.{value, members, parse_map};
ghost use Rattle.serde_json.specs.Data.{Data, no_members, object};
ghost use Rattle.serde_json.specs.Read.{of_json, of_members, converted, read as read_text};
ghost use Rattle.mx_body.specs.Bodies.{has_text_within, json_of, pdus_in, texts_of, texts_within};
ghost use Rattle.mx_body.specs.Transactions.{ReadsPart, ReadsParts, ReadsTexts, ReadsTransaction, texts_in};

use crate::entries::read_array;
use crate::errors::BodyError;
use crate::reading::{MAX_DEPTH, read, read_from};
use json::{Reader, Scratch, Token};
use std::alloc::Global;

/// How many events (PDUs) a transaction has at most.
///
/// Source: the Matrix specification, Server-Server API, "Transactions".
pub const MOST_EVENTS: usize = 50;

/// How many ephemeral events (EDUs) a transaction has at most. They are not looked at.
///
/// Source: the Matrix specification, Server-Server API, "Transactions".
pub const MOST_EPHEMERAL_EVENTS: usize = 100;

/// What the members of a transaction that were read say: the texts of its events, where they are few enough, and
/// whether the ephemeral ones are.
#[derive(Drop)]
pub(crate) struct Parts {
    pub(crate) pdus: Option<Vec<Vec<u8>>>,
    pub(crate) has_few_edus: bool,
}

/// The canonical texts of a transaction's events, of those that have one of at most `largest` bytes, in their order;
/// none where `pdus` is no array of at most [`MOST_EVENTS`], or `edus` is there and is no array of at most
/// [`MOST_EPHEMERAL_EVENTS`]. No value is made: the memory is a few times the length of the body, and [`MOST_EVENTS`]
/// times `largest`. The scratch is kept from body to body.
///
/// `NotJson` where the body is not UTF-8, or no JSON, or nests deeper than 127; `Memory`. Source: the Matrix
/// specification, Server-Server API, `PUT /_matrix/federation/v1/send/{txnId}`, and the appendix "Canonical JSON".
pub fn transaction_texts(
    alloc: Global,
    scratch: &mut Scratch,
    body: &[u8],
    largest: usize,
) -> Result<Option<Vec<Vec<u8>>>, BodyError>
    // Each text is JSON for its event.
    ensures ok { IfOk result (λ texts. (d : Data) × (json_of body.now ≡ Some d)
        × (option_map (λ all. texts_of all.items) texts ≡ option_map (texts_within largest) (pdus_in d))
        × (option_map (λ all. map json_of (texts_of all.items)) texts
        ≡ option_map (λ entries. map Some (filter (has_text_within largest) entries)) (pdus_in d))) }
    ensures err { IfErr result (λ e. (e ≡ BodyError.Memory)
        ⊎ ((e ≡ BodyError.NotJson) × (json_of body.now ≡ None))) }
{
    let text = match str::from_utf8(body) {
        Ok(text) => text,
        Err(_) => return Err(BodyError::NotJson),
    };
    let texts = read_whole(alloc, text, scratch, largest)?;
    Ok(texts)
}

fn read_whole(
    alloc: Global,
    text: &str,
    scratch: &mut Scratch,
    largest: usize,
) -> Result<Option<Vec<Vec<u8>>>, BodyError>
    ensures ok { IfOk result (λ texts. ReadsTransaction largest (read_text text.now) (texts_in texts)) }
    ensures err { IsErrOf result BodyError.NotJson → read_text text.now ≡ None }
{
    let Ok(mut reader) = Reader::new(text, scratch) else {
        return Err(BodyError::Memory);
    };
    let texts = read_transaction(alloc, &mut reader, largest)?;
    if reader.next().is_some() {
        return Err(BodyError::NotJson);
    }
    Ok(texts)
}

fn read_transaction(
    alloc: Global,
    reader: &mut Reader<'_>,
    largest: usize,
) -> Result<Option<Vec<Vec<u8>>>, BodyError>
    ensures ok { IfOk result (λ texts.
        ReadsTexts largest (converted of_json (value 127 reader.old)) reader.new (texts_in texts)) }
    ensures err { IsErrOf result BodyError.NotJson → converted of_json (value 127 reader.old) ≡ None }
{
    let token = reader.next().ok_or(BodyError::NotJson)?;
    if let Token::BeginObject = token {
        let parts = read_parts(alloc, reader, largest)?;
        return Ok(events_of(parts));
    }
    let _piece = read_from(alloc, reader, token, MAX_DEPTH, 0)?;
    Ok(None)
}

fn events_of(parts: Parts) -> Option<Vec<Vec<u8>>>
    ensures { texts_in result ≡ (if parts.has_few_edus then texts_in parts.pdus else None) }
{
    if parts.has_few_edus { parts.pdus } else { None }
}

fn read_parts(alloc: Global, reader: &mut Reader<'_>, largest: usize) -> Result<Parts, BodyError>
    ensures ok { IfOk result (λ parts. ReadsParts largest parts (parse_map object
        (converted (λ ms. of_members ms no_members) (members (value 126) (length reader.old) reader.old))) reader.new) }
    ensures err { IsErrOf result BodyError.NotJson → parse_map object
        (converted (λ ms. of_members ms no_members) (members (value 126) (length reader.old) reader.old)) ≡ None }
{
    let mut parts = Parts {
        pdus: None,
        has_few_edus: true,
    };
    'members: while let Some(key) = reader.next_key()? {
        parts = read_part(alloc, reader, key, parts, largest)?;
    }
    Ok(parts)
}

// The value of one member more, which takes the place of one with its key.
fn read_part(
    alloc: Global,
    reader: &mut Reader<'_>,
    key: &str,
    parts: Parts,
    largest: usize,
) -> Result<Parts, BodyError>
    ensures ok { IfOk result (λ after.
        ReadsPart largest key.now parts after (converted of_json (value 126 reader.old)) reader.new) }
    ensures shorter { OnOk result (length reader.new < length reader.old) }
    ensures utf8 { IsUtf8 key.now }
    ensures err { IsErrOf result BodyError.NotJson → converted of_json (value 126 reader.old) ≡ None }
{
    let Parts { pdus, has_few_edus } = parts;
    if key == "pdus" {
        let read_pdus = read_array(alloc, reader, MOST_EVENTS, largest)?;
        return Ok(Parts {
            pdus: read_pdus,
            has_few_edus,
        });
    }
    if key == "edus" {
        let read_edus = read_array(alloc, reader, MOST_EPHEMERAL_EVENTS, 0)?;
        return Ok(Parts {
            pdus,
            has_few_edus: read_edus.is_some(),
        });
    }
    let _piece = read(alloc, reader, MAX_DEPTH - 1, 0)?;
    Ok(Parts { pdus, has_few_edus })
}
