// Whether a text is an identifier. Nothing here takes memory.
ghost use Rattle.std.specs.Prelude.{◌≡◌, ◌<◌};
ghost use Rattle.std.specs.Result.{result_err};
ghost use Rattle.mx_ident.specs.Identifier.{common_error, event_id_error, length_error, server_name_error, server_of};

use crate::refusals::NotAnId;

/// The most bytes of an identifier.
pub const LONGEST: usize = 255;

// Of a sigil, a local part, a colon and a server name.
pub fn check_common(sigil: char, text: &str) -> Result<(), NotAnId>
    requires not_nul { 0 < sigil }
    requires ascii { sigil < 128 }
    ensures { result_err result ≡ common_error sigil text.now }
{
    if !text.starts_with(sigil) {
        return Err(NotAnId::NoSigil);
    }
    let Some((_, server)) = text.split_once(':') else {
        return Err(NotAnId::NoColon);
    };
    if server.is_empty() {
        return Err(NotAnId::EmptyServer);
    }
    check_length(text)
}

pub fn check_event_id(text: &str) -> Result<(), NotAnId>
    ensures { result_err result ≡ event_id_error text.now }
{
    if !text.starts_with('$') {
        return Err(NotAnId::NoSigil);
    }
    if text.len() == 1 {
        return Err(NotAnId::NothingAfterSigil);
    }
    check_length(text)
}

pub fn check_server_name(text: &str) -> Result<(), NotAnId>
    ensures { result_err result ≡ server_name_error text.now }
{
    if text.is_empty() {
        return Err(NotAnId::EmptyServer);
    }
    check_length(text)
}

fn check_length(text: &str) -> Result<(), NotAnId>
    ensures { result_err result ≡ length_error text.now }
{
    if text.len() > LONGEST {
        return Err(NotAnId::TooLong);
    }
    Ok(())
}

// What stands after the first colon, or nothing where there is none.
pub fn after_colon(text: &str) -> &str
    ensures { result.now ≡ server_of text.now }
{
    match text.split_once(':') {
        Some((_, server)) => server,
        None => "",
    }
}
