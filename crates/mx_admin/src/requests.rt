// Requests at the admin port, as they come.
use crate::calls::AdminCall;
use httparse::{EMPTY_HEADER, Header, Request, Status};
use std::alloc::{AllocError, Global};
use std::io::{ErrorKind, Read};
use std::str;
use std::time::{Clock, Duration};

// How many reads a request may take, of 4,096 bytes at most.
const MOST_READS: u32 = 64;
// The most headers of a request.
const MOST_HEADERS: usize = 32;
// How many bytes the body of a request may have: more than the line of an event.
const LONGEST_BODY: usize = 131_072;
// How long a request may take, in milliseconds.
const LONGEST_REQUEST: u64 = 1_000;

/// A request at the admin port.
///
/// `Asking`: what it asks, with its body. `FromPage`: a page of a browser asks, by its `Origin`. `Malformed`: no request, or one
/// that is too long or comes too slowly.
#[derive(Drop)]
pub(crate) enum AdminRequest {
    Asking(AdminCall, Vec<u8>),
    FromPage,
    Malformed,
}

/// The request of a connection. `AllocError` where no memory is left.
pub(crate) fn read_request<C: Clock, T: Read>(
    clock: &C,
    alloc: Global,
    stream: &mut T,
) -> Result<AdminRequest, AllocError> {
    let mut bytes = Vec::new(alloc);
    let begun = clock.monotonic().ok();
    for _read in 0..MOST_READS {
        if !has_more(stream, &mut bytes)? || is_late(clock, begun) {
            return Ok(AdminRequest::Malformed);
        }
        if let Some(request) = request_in(alloc, &bytes)? {
            return Ok(request);
        }
    }
    Ok(AdminRequest::Malformed)
}

// Takes what one read gives behind the bytes so far; false at the end, and where a read fails.
fn has_more<T: Read>(stream: &mut T, bytes: &mut Vec<u8>) -> Result<bool, AllocError> {
    let mut chunk = [0u8; 4096];
    match stream.read(&mut chunk) {
        Ok(0) => Ok(false),
        Ok(count) => {
            bytes.extend_from_slice(&chunk[..count])?;
            Ok(true)
        }
        Err(error) => Ok(error.kind() == ErrorKind::Interrupted),
    }
}

fn is_late<C: Clock>(clock: &C, begun: Option<Duration>) -> bool {
    match (begun, clock.monotonic()) {
        (Some(begun), Ok(now)) => {
            now.saturating_sub(begun) > Duration::from_millis(LONGEST_REQUEST)
        }
        _ => true,
    }
}

// The request that these bytes are; none where more of it is to come.
fn request_in(alloc: Global, bytes: &[u8]) -> Result<Option<AdminRequest>, AllocError> {
    let mut headers = [EMPTY_HEADER; MOST_HEADERS];
    let mut request = Request::new(&mut headers);
    let start = match request.parse(bytes) {
        Ok(Status::Complete(start)) => start,
        Ok(Status::Partial) => return Ok(None),
        Err(_error) => return Ok(Some(AdminRequest::Malformed)),
    };
    let (Some(method), Some(path)) = (request.method, request.path) else {
        return Ok(Some(AdminRequest::Malformed));
    };
    if header_in(request.headers, "origin").is_some() {
        return Ok(Some(AdminRequest::FromPage));
    }
    let call = AdminCall::of(method.as_bytes(), path.as_bytes());
    match body_length(request.headers) {
        Some(length) if length <= LONGEST_BODY => body_in(alloc, &bytes[start..], length, call),
        _ => Ok(Some(AdminRequest::Malformed)),
    }
}

// The request that asks this, once its body of so many bytes has come.
fn body_in(
    alloc: Global,
    bytes: &[u8],
    length: usize,
    call: AdminCall,
) -> Result<Option<AdminRequest>, AllocError> {
    if bytes.len() < length {
        return Ok(None);
    }
    let mut body = Vec::new(alloc);
    body.extend_from_slice(&bytes[..length])?;
    Ok(Some(AdminRequest::Asking(call, body)))
}

// The value of a header, whose name is in small letters.
fn header_in<'a>(headers: &'a [Header<'a>], name: &str) -> Option<&'a [u8]> {
    let header = headers
        .iter()
        .find(|header| header.name.eq_ignore_ascii_case(name))?;
    Some(header.value)
}

// How many bytes the body has; none where that can't be told before it has come.
fn body_length(headers: &[Header<'_>]) -> Option<usize> {
    if header_in(headers, "transfer-encoding").is_some() {
        return None;
    }
    match header_in(headers, "content-length") {
        None => Some(0),
        Some(value) => str::from_utf8(value).ok()?.parse::<usize>().ok(),
    }
}
