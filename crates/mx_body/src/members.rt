// The members of an object, by key, each with its value's text.
ghost use Rattle.std.specs.Prelude.{◌≡◌, ◌++◌, ◌∷◌, [], ◌-◌, IfOk, IsUtf8, OnOk, Some, None};
ghost use Rattle.json.specs.Print.{quoted};
ghost use Rattle.serde_json.specs.Data.{Data, Members, no_members, object, put};
ghost use Rattle.serde_json.specs.Written.{comma_if};
ghost use Rattle.mx_body.specs.Bodies.{bytes_of};
ghost use Rattle.mx_body.specs.Pieces as definition;
ghost use Rattle.mx_body.specs.Pieces.{ArePiecesOf, AreKept, IsPieceOf, count, kept_of};

use crate::pieces::key_text;
use serde_json::Map;
use std::alloc::{AllocError, Global};

/// The texts of members, by key. One that has no text that fits may still be followed by another of its key.
pub(crate) type Kept = Map<String, Option<Vec<u8>>>;

/// No members, to which others may be added where there is room for any.
pub(crate) fn no_kept(alloc: Global, room: usize) -> Option<Kept>
    ensures { AreKept room no_members (kept_of result) }
{
    if room == 0 {
        None
    } else {
        Some(Map::new(alloc))
    }
}

/// The room for one member more.
pub(crate) fn room_beside(found: &Option<Kept>, room: usize) -> usize
    ensures { result ≡ definition.room_beside (kept_of found.now) room }
{
    match found {
        Some(found) => room.saturating_sub(found.len()),
        None => 0,
    }
}

/// The members with one more, which takes the place of one with its key; none where they are too many for the room.
pub(crate) fn with_member(
    alloc: Global,
    found: Option<Kept>,
    key: &str,
    member: Option<Vec<u8>>,
    room: usize,
) -> Result<Option<Kept>, AllocError>
    ensures kept { IfOk result (λ all. (ms : Members) (d : Data) → AreKept room ms (kept_of found)
        → IsPieceOf (definition.room_beside (kept_of found) room) d (bytes_of member)
        → AreKept room (put key.now d ms) (kept_of all)) }
    ensures utf8 { IsUtf8 key.now }
{
    let Some(mut found) = found else {
        return Ok(None);
    };
    let name = String::from_str(alloc, key)?;
    drop(found.insert(name, member)?);
    if found.len() >= room {
        return Ok(None);
    }
    Ok(Some(found))
}

/// The canonical text of the object with these members, where it may fit.
pub(crate) fn object_piece(
    alloc: Global,
    found: Option<Kept>,
    room: usize,
) -> Result<Option<Vec<u8>>, AllocError>
    ensures { IfOk result (λ piece. (ms : Members) → AreKept room ms (kept_of found)
        → IsPieceOf room (object ms) (bytes_of piece)) }
{
    match found {
        Some(found) => piece_of_members(alloc, &found, room),
        None => Ok(None),
    }
}

fn piece_of_members(alloc: Global, found: &Kept, room: usize) -> Result<Option<Vec<u8>>, AllocError>
    ensures { IfOk result (λ piece. (ms : Members) → ArePiecesOf (room - count ms) ms found.now.entries
        → IsPieceOf room (object ms) (bytes_of piece)) }
{
    let mut text = Vec::new(alloc);
    text.push(b'{')?;
    let mut later = false;
    for (key, piece) in found.iter() {
        let Some(piece) = piece else {
            return Ok(None);
        };
        add_member(alloc, &mut text, later, key, piece)?;
        if text.len() > room {
            return Ok(None);
        }
        later = true;
    }
    text.push(b'}')?;
    Ok(Some(text))
}

fn add_member(
    alloc: Global,
    text: &mut Vec<u8>,
    later: bool,
    key: &str,
    piece: &[u8],
) -> Result<(), AllocError>
    ensures { OnOk result (text.new.items
        ≡ (text.old.items ++ (comma_if later ++ (quoted key.now ++ 58 ∷ []))) ++ piece.now) }
{
    let name = key_text(alloc, later, key)?;
    text.extend_from_slice(&name)?;
    text.extend_from_slice(piece)?;
    Ok(())
}
