// The replies of the admin port.
ghost use Rattle.std.specs.Prelude.{◌≡◌, IfOk, string_bytes};
ghost use Rattle.mx_admin.specs.Calls as definition;

use std::alloc::{AllocError, Global};

/// The media type of lines for people and of figures for Prometheus.
pub const PLAIN_TEXT: &str = "text/plain; version=0.0.4; charset=utf-8";
/// The media type of lines of JSON.
pub const JSON_LINES: &str = "application/json";

/// A reply of the admin port: a status of HTTP with its name, and a body of a media type.
#[derive(Debug, Drop)]
pub struct AdminReply {
    pub status: u16,
    pub reason: &'static str,
    pub media: &'static str,
    pub body: String,
}

/// The bytes of a reply, behind which the connection is closed. `AllocError` where no memory is left.
///
/// Source: RFC 9112, sections 4 and 9.6; RFC 9110, section 8.3; Prometheus, "Exposition formats", "Text-based format".
pub fn reply_bytes(alloc: Global, reply: &AdminReply) -> Result<String, AllocError>
    ensures { IfOk result (λ text. string_bytes text
        ≡ definition.response_text reply.now.status reply.now.reason.now reply.now.media.now (string_bytes reply.now.body)) }
{
    let status = reply.status;
    let reason = reply.reason;
    let media = reply.media;
    let body = reply.body.as_str();
    let length = body.len();
    format!(in alloc;
        "HTTP/1.1 {status} {reason}\r\nContent-Type: {media}\r\nContent-Length: {length}\r\nConnection: close\r\n\r\n{body}"
    )
}
