// Requests, as HTTP carries them.
ghost use Rattle.std.specs.Prelude.{◌≡◌};
ghost use Rattle.mx_http_requests.specs.Carried.{http_request_shown};
ghost use Rattle.mx_requests.specs.CallsShown.{request_shown};

use mx_http::HttpRequest;
use mx_requests::WireRequest;

/// The request that HTTP carried, whole. It takes no memory.
///
/// Source: RFC 9110, and the Matrix specification, Server-Server API, "API standards".
pub fn wire_request(request: HttpRequest) -> WireRequest
    ensures { request_shown result ≡ http_request_shown request }
{
    let HttpRequest {
        method,
        target,
        authorization,
        body,
    } = request;
    WireRequest {
        method,
        target,
        authorization,
        body,
    }
}
