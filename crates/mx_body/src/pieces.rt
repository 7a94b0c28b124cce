// Texts of the parts of a value.
ghost use Rattle.std.specs.Prelude.{◌≡◌, IfOk, IsUtf8, Some, None, true, [], ◌++◌, ◌∷◌};
ghost use Rattle.json.specs.Print.{quoted};
ghost use Rattle.serde_json.specs.Data.{boolean, null, string};
ghost use Rattle.serde_json.specs.Written.{comma_if};
ghost use Rattle.mx_body.specs.Bodies.{bytes_of};
ghost use Rattle.mx_body.specs.Pieces as definition;
ghost use Rattle.mx_body.specs.Pieces.{IsPieceOf, cut};

use mx_canon::{TextBuffer, write_key, write_string};
use std::alloc::{AllocError, Global};

/// The text, where it fits.
pub(crate) fn fitting(
    alloc: Global,
    text: &[u8],
    room: usize,
) -> Result<Option<Vec<u8>>, AllocError>
    ensures { IfOk result (λ piece. bytes_of piece ≡ cut room text.now) }
{
    if text.len() > room {
        return Ok(None);
    }
    let bytes = text.to_vec(alloc)?;
    Ok(Some(bytes))
}

/// The canonical text of a truth value, where it fits.
pub(crate) fn bool_piece(
    alloc: Global,
    is_true: bool,
    room: usize,
) -> Result<Option<Vec<u8>>, AllocError>
    ensures { IfOk result (λ piece. IsPieceOf room (boolean is_true) (bytes_of piece)) }
{
    if is_true {
        fitting(alloc, b"true", room)
    } else {
        fitting(alloc, b"false", room)
    }
}

/// The canonical text of null, where it fits.
pub(crate) fn null_piece(alloc: Global, room: usize) -> Result<Option<Vec<u8>>, AllocError>
    ensures { IfOk result (λ piece. IsPieceOf room null (bytes_of piece)) }
{
    fitting(alloc, b"null", room)
}

/// The canonical text of a string, where it may fit.
pub(crate) fn string_piece(
    alloc: Global,
    text: &str,
    room: usize,
) -> Result<Option<Vec<u8>>, AllocError>
    ensures piece { IfOk result (λ piece. IsPieceOf room (string text.now) (bytes_of piece)) }
    ensures utf8 { IsUtf8 text.now }
{
    if text.len() + 2 > room {
        return Ok(None);
    }
    let bytes = string_text(alloc, text)?;
    Ok(Some(bytes))
}

fn string_text(alloc: Global, text: &str) -> Result<Vec<u8>, AllocError>
    ensures { IfOk result (λ bytes. bytes.items ≡ quoted text.now) }
{
    let mut out = TextBuffer::new(alloc);
    write_string(&mut out, text.as_bytes());
    out.into_bytes()
}

/// What stands before the value of a member: a comma where it is a later one, the key and a colon.
pub(crate) fn key_text(alloc: Global, later: bool, key: &str) -> Result<Vec<u8>, AllocError>
    ensures { IfOk result (λ bytes. bytes.items ≡ comma_if later ++ (quoted key.now ++ 58 ∷ [])) }
{
    let mut out = TextBuffer::new(alloc);
    write_key(&mut out, later, key.as_bytes());
    out.into_bytes()
}

/// The text of an array with one item more, where the items before it and the item have texts that fit.
pub(crate) fn with_item(
    text: Option<Vec<u8>>,
    later: bool,
    item: Option<Vec<u8>>,
    room: usize,
) -> Result<Option<Vec<u8>>, AllocError>
    ensures { IfOk result (λ all.
        bytes_of all ≡ definition.with_item room later (bytes_of text) (bytes_of item)) }
{
    let Some(mut text) = text else {
        return Ok(None);
    };
    let Some(item) = item else {
        return Ok(None);
    };
    add_comma(&mut text, later)?;
    text.extend_from_slice(&item)?;
    if text.len() > room {
        return Ok(None);
    }
    Ok(Some(text))
}

fn add_comma(text: &mut Vec<u8>, later: bool) -> Result<(), AllocError>
    ensures { IfOk result (λ _. text.new.items ≡ text.old.items ++ comma_if later) }
{
    if later {
        text.push(b',')?;
    }
    Ok(())
}

/// The text of an array after its last item.
pub(crate) fn closed(text: Option<Vec<u8>>) -> Result<Option<Vec<u8>>, AllocError>
    ensures { IfOk result (λ all. bytes_of all ≡ definition.closed (bytes_of text)) }
{
    let Some(mut text) = text else {
        return Ok(None);
    };
    text.push(b']')?;
    Ok(Some(text))
}

/// The room that a text leaves.
pub(crate) fn room_after(text: &Option<Vec<u8>>, room: usize) -> usize
    ensures { result ≡ definition.room_after (bytes_of text.now) room }
{
    match text {
        Some(text) => room.saturating_sub(text.len()),
        None => 0,
    }
}

/// The piece, where it fits.
pub(crate) fn within(piece: Option<Vec<u8>>, largest: usize) -> Option<Vec<u8>>
    ensures { bytes_of result ≡ definition.within largest (bytes_of piece) }
{
    match piece {
        Some(text) if text.len() <= largest => Some(text),
        _ => None,
    }
}
