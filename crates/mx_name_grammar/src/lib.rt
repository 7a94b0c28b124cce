//! Whether a server's name is one by the grammar of the Matrix specification.
#![tactic(auto)]

ghost use Rattle.std.specs.Prelude.{◌≡◌};
ghost use Rattle.std.specs.Char.{is_ascii_digit};
ghost use Rattle.std.specs.List.{list_all};
ghost use Rattle.mx_ident.specs.Identifier.{begins_with};
ghost use Rattle.mx_name_grammar.specs.NameGrammar as definition;

use mx_ident::ServerName;

/// Whether a name is one by the specification's grammar: a DNS name, an IPv4 address, or an IPv6 address between
/// brackets, and perhaps a port of 1 to 5 digits. It takes no memory.
///
/// Source: the appendix "Server Name" of the Matrix specification.
pub fn is_in_grammar(name: &ServerName) -> bool
    ensures { result ≡ definition.is_in_grammar name.now }
{
    if is_opened(name.as_str().as_bytes()) {
        is_literal(name.as_str())
    } else {
        is_dns_name(name.host().as_bytes())
    }
}

fn is_opened(text: &[u8]) -> bool
    ensures { result ≡ begins_with 91 text.now }
{
    match text {
        [first, ..] => *first == b'[',
        [] => false,
    }
}

// An address of the sixth version between brackets, and behind that a port or nothing.
fn is_literal(text: &str) -> bool
    ensures { result ≡ definition.is_literal text.now }
{
    match text.split_once(']') {
        Some((opened, port)) => is_address(opened.as_bytes()) && is_port_part(port.as_bytes()),
        None => false,
    }
}

// Nothing, or a colon and a port.
fn is_port_part(text: &[u8]) -> bool
    ensures { result ≡ definition.is_port_part text.now }
{
    match text {
        [first, port @ ..] => *first == b':' && is_port(port),
        [] => true,
    }
}

fn is_port(text: &[u8]) -> bool
    ensures { result ≡ definition.is_port text.now }
{
    1 <= text.len() && text.len() <= 5 && has_digits_alone(text)
}

fn has_digits_alone(text: &[u8]) -> bool
    ensures { result ≡ list_all is_ascii_digit text.now }
{
    text.iter().all(|c| c.is_ascii_digit())
}

fn is_dns_name(text: &[u8]) -> bool
    ensures { result ≡ definition.is_dns_name text.now }
{
    1 <= text.len() && text.len() <= 255 && has_dns_chars_alone(text)
}

fn has_dns_chars_alone(text: &[u8]) -> bool
    ensures { result ≡ list_all definition.is_dns_char text.now }
{
    text.iter().all(|c| is_dns_char(*c))
}

fn is_dns_char(c: u8) -> bool
    ensures { result ≡ definition.is_dns_char c }
{
    c.is_ascii_alphanumeric() || c == b'-' || c == b'.'
}

// An address behind its bracket.
fn is_address(opened: &[u8]) -> bool
    ensures { result ≡ definition.is_opened_address opened.now }
{
    match opened {
        [_, address @ ..] => {
            2 <= address.len() && address.len() <= 45 && has_address_chars_alone(address)
        }
        [] => false,
    }
}

fn has_address_chars_alone(text: &[u8]) -> bool
    ensures { result ≡ list_all definition.is_address_char text.now }
{
    text.iter().all(|c| is_address_char(*c))
}

fn is_address_char(c: u8) -> bool
    ensures { result ≡ definition.is_address_char c }
{
    c.is_ascii_hexdigit() || c == b':' || c == b'.'
}
