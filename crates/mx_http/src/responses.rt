// Replies, as responses of hyper.
ghost use Rattle.std.specs.Prelude.{◌≡◌, IfOk, option_map, string_bytes};
ghost use Rattle.mx_http.specs.Responses.{IsResponse, TellsAllowed, first_fields, kind_field, sent_status};

use crate::memory::{CountedReply, ReplyBody};
use bytes::Bytes;
use http::response::Parts;
use hyper::header::{self, HeaderValue, HeaderValueError};
use hyper::{HeaderMap, Response, StatusCode};
use std::alloc::{AllocError, Global};

/// The response with a reply, whole; it tells whether its connection is closed behind it.
pub fn response(
    alloc: Global,
    reply: CountedReply,
    ends: bool,
) -> Result<Response<ReplyBody<Bytes>>, AllocError>
    ensures { IfOk result (IsResponse reply.reply ends) }
{
    let CountedReply { reply, memory } = reply;
    let mut head = Parts::new(alloc);
    head.status = status_of(reply.status);
    head.headers = with_allowed(first_fields(alloc, ends)?, reply.allowed)?;
    let body = ReplyBody::new(reply.body, memory);
    Ok(Response::from_parts(head, body))
}

fn status_of(number: u16) -> StatusCode
    ensures { result ≡ sent_status number }
{
    match StatusCode::from_u16(number) {
        Ok(status) => status,
        Err(_invalid) => StatusCode::INTERNAL_SERVER_ERROR,
    }
}

fn kind_field(alloc: Global) -> Result<HeaderMap, AllocError>
    ensures { IfOk result (λ fields. fields ≡ kind_field) }
{
    let kind = HeaderValue::from_static("application/json");
    let mut fields = HeaderMap::new(alloc);
    match fields.insert(header::CONTENT_TYPE, kind) {
        Ok(_before) => Ok(fields),
        Err(_refused) => Err(AllocError),
    }
}

fn first_fields(alloc: Global, ends: bool) -> Result<HeaderMap, AllocError>
    ensures { IfOk result (λ fields. fields ≡ first_fields ends) }
{
    let mut fields = kind_field(alloc)?;
    if !ends {
        return Ok(fields);
    }
    let close = HeaderValue::from_static("close");
    match fields.insert(header::CONNECTION, close) {
        Ok(_before) => Ok(fields),
        Err(_refused) => Err(AllocError),
    }
}

// The fields with the method that the target has, where the request has another.
fn with_allowed(mut fields: HeaderMap, allowed: Option<String>) -> Result<HeaderMap, AllocError>
    ensures { IfOk result (TellsAllowed fields (option_map string_bytes allowed)) }
{
    let Some(method) = allowed else {
        return Ok(fields);
    };
    let value = match HeaderValue::from_string(method) {
        Ok(value) => value,
        Err(HeaderValueError::Invalid) => return Ok(fields),
        Err(HeaderValueError::OutOfMemory) => return Err(AllocError),
    };
    match fields.insert(header::ALLOW, value) {
        Ok(_before) => Ok(fields),
        Err(_refused) => Err(AllocError),
    }
}
