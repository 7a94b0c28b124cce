// What the head of a request tells before its body has come.
ghost use Rattle.std.specs.Prelude.{◌≡◌, ◌<◌, ◌≤◌, ◌↔◌, [], IfOk, IsSomeAnd, IsTrue, bytes_eq, codes, length, map, option_map};
ghost use Rattle.std.specs.List.{prefix_len};
ghost use Rattle.std.specs.Char.{is_ascii_digit, to_ascii_lowercase};
ghost use Rattle.http_server.specs.Host.{is_name_byte, is_port, literal_len, is_bracketed, IsLiteral, IsHostText};
ghost use Rattle.http.specs.Request.{head_of};
ghost use Rattle.mx_http.specs.Requests.{IsRequest, field_of, is_other_coding, target_of};

use crate::bodies::BodyError;
use crate::messages::HttpRequest;
use hyper::body::{Body, Incoming};
use hyper::{HeaderMap, Request, Uri, header};
use std::alloc::{AllocError, Global};
use std::net::Ipv6Addr;

/// Why the body of a request is not read: `Malformed` where its `Host` is no host and port, `TooLong` where its body is
/// announced to have more bytes than it may.
///
/// Source: RFC 9112, section 3.2.
pub fn head_fault<I: Drop>(request: &Request<Incoming<I>>, largest: usize) -> Option<BodyError> {
    if let Some(host) = request.headers().get(header::HOST) {
        if !is_host(host.as_bytes()) {
            return Some(BodyError::Malformed);
        }
    }
    if is_longer(request.body().size_hint().exact(), largest) {
        return Some(BodyError::TooLong);
    }
    None
}

// Whether a body of this length, where it is known, has more bytes than it may.
fn is_longer(length: Option<u64>, largest: usize) -> bool
    ensures { IsTrue result ↔ IsSomeAnd length (λ bytes. largest < bytes) }
{
    match length {
        Some(bytes) => bytes > largest as u64,
        None => false,
    }
}

/// The request with this head, whose body has not come yet.
pub fn request_of<B>(alloc: Global, request: &Request<B>) -> Result<HttpRequest, AllocError>
    ensures { IfOk result (IsRequest (head_of request.now) []) }
{
    Ok(HttpRequest {
        method: String::from_str(alloc, request.method().as_str())?,
        target: target_of(alloc, request.uri())?,
        authorization: authorization_of(alloc, request.headers())?,
        body: Vec::new(alloc),
    })
}

// The value of the first `Authorization` header.
fn authorization_of(alloc: Global, headers: &HeaderMap) -> Result<Option<Vec<u8>>, AllocError>
    ensures { IfOk result (λ found. option_map (λ value. value.items) found
        ≡ field_of headers.now (codes "authorization")) }
{
    match headers.get(header::AUTHORIZATION) {
        Some(value) => Ok(Some(value.as_bytes().to_vec(alloc)?)),
        None => Ok(None),
    }
}

/// Whether the body comes in a transfer coding other than `chunked`.
pub fn has_other_coding(headers: &HeaderMap) -> bool
    ensures { result ≡ is_other_coding (field_of headers.now (codes "transfer-encoding")) }
{
    match headers.get(header::TRANSFER_ENCODING) {
        Some(coding) => !is_chunked(coding.as_bytes()),
        None => false,
    }
}

fn is_chunked(coding: &[u8]) -> bool
    ensures { result ≡ bytes_eq (map to_ascii_lowercase coding.now) (codes "chunked") }
{
    coding.eq_ignore_ascii_case(b"chunked")
}

// The target: the path and the query, also where it was sent with a scheme and a host; of a target without a path, the
// host and the port. hyper gives no fragment.
//
// Source: RFC 9112, section 3.2.
fn target_of(alloc: Global, uri: &Uri) -> Result<Vec<u8>, AllocError>
    ensures { IfOk result (λ target. target.items ≡ target_of uri.now) }
{
    if let Some(path) = uri.path_and_query() {
        return path.as_str().as_bytes().to_vec(alloc);
    }
    match uri.authority() {
        Some(authority) => authority.as_str().as_bytes().to_vec(alloc),
        None => Ok(Vec::new(alloc)),
    }
}

fn is_name_byte(byte: u8) -> bool
    ensures { result ≡ is_name_byte byte }
{
    byte.is_ascii_alphanumeric()
        || matches!(
            byte,
            b'-' | b'.' | b'_' | b'~' | b'!' | b'$' | b'&' | b'\'' | b'(' | b')'
        )
        || matches!(byte, b'*' | b'+' | b',' | b';' | b'=')
}

fn name_length(text: &[u8]) -> usize
    ensures value { result ≡ prefix_len is_name_byte text.now }
    ensures within { result ≤ length text.now }
{
    text.iter().take_while(|byte| is_name_byte(**byte)).count()
}

fn digits_length(text: &[u8]) -> usize
    ensures { result ≡ prefix_len is_ascii_digit text.now }
{
    text.iter().take_while(|byte| byte.is_ascii_digit()).count()
}

fn literal_length(rest: &[u8]) -> usize
    ensures value { result ≡ literal_len rest.now }
    ensures within { result ≤ length rest.now }
{
    rest.iter().take_while(|byte| **byte != b']').count()
}

// Nothing, or a colon and digits.
fn is_port(text: &[u8]) -> bool
    ensures { result ≡ is_port text.now }
{
    text.is_empty() || (text[0] == b':' && digits_length(&text[1..]) == text.len() - 1)
}

fn is_bracketed(text: &[u8]) -> bool
    ensures { result ≡ is_bracketed text.now }
{
    !text.is_empty() && text[0] == b'['
}

// What follows `[` in a host: an address, `]` and a port.
fn is_literal(rest: &[u8]) -> bool
    ensures { IsTrue result ↔ IsLiteral rest.now }
{
    let end = literal_length(rest);
    if end == rest.len() || !is_port(&rest[end + 1..]) {
        return false;
    }
    match Ipv6Addr::parse_ascii(&rest[..end]) {
        Ok(_) => true,
        Err(_) => false,
    }
}

// Whether it is a host and a port, as the value of a field `Host` has to be.
fn is_host(text: &[u8]) -> bool
    ensures { IsTrue result ↔ IsHostText text.now }
{
    if is_bracketed(text) {
        return is_literal(&text[1..]);
    }
    let end = name_length(text);
    (end > 0 || text.is_empty()) && is_port(&text[end..])
}
