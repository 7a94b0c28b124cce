// The host of a server name, and whether it is an IP literal. Nothing here takes memory.
ghost use Rattle.std.specs.Prelude.{◌≡◌, MatchOption, false, true};
ghost use Rattle.mx_ident.specs.Identifier as definition;

use crate::digits::has_only_digits;

pub fn host_of(name: &str) -> &str
    ensures { result.now ≡ definition.host name.now }
{
    match bracketed(name) {
        Some(host) => host,
        None => without_port(name),
    }
}

// A name that begins with `[`, up to and with its first `]`.
fn bracketed(name: &str) -> Option<&str>
    ensures { MatchOption result
        (definition.is_bracketed name.now ≡ false)
        (λ host. (definition.is_bracketed name.now ≡ true) × (host.now ≡ definition.through_bracket name.now)) }
{
    if !name.starts_with('[') {
        return None;
    }
    let closing = name.find(']')?;
    Some(&name[..closing + 1])
}

fn without_port(name: &str) -> &str
    ensures { result.now ≡ definition.without_port name.now }
{
    let Some((host, port)) = name.rsplit_once(':') else {
        return name;
    };
    if is_digits(port, 1, 5) { host } else { name }
}

pub fn is_ip_host(host: &str) -> bool
    ensures { result ≡ definition.is_ip_host host.now }
{
    host.starts_with('[') || is_ipv4(host)
}

fn is_ipv4(host: &str) -> bool
    ensures { result ≡ definition.is_ipv4 host.now }
{
    host.split('.').count() == 4 && host.split('.').all(is_octet)
}

// 1 to 3 digits, at most 255.
fn is_octet(part: &str) -> bool
    ensures { result ≡ definition.is_octet part.now }
{
    is_digits(part, 1, 3) && part.parse::<u8>().is_ok()
}

fn is_digits(text: &str, fewest: usize, most: usize) -> bool
    ensures { result ≡ definition.is_digits fewest most text.now }
{
    fewest <= text.len() && text.len() <= most && has_only_digits(text.as_bytes())
}
