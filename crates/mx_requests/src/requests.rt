// Requests, read whole.
ghost use Rattle.std.specs.Prelude.{◌≡◌, ◌≢◌, ◌⊎◌, Ok, Err, IfErr, IfOk, IsOk, option_and_then, option_map};
ghost use Rattle.mx_requests.specs.Calls as definition;
ghost use Rattle.mx_requests.specs.CallsShown.{call_shown, request_shown};

use crate::authorization::origin_of;
use crate::calls::{WireCall, call_on};
use crate::faults::Fault;
use crate::targets::path_of;
use crate::targets::routes::{Route, Routes};
use json::Scratch;
use mx_ident::ServerName;
use mx_pdu::Verifier;
use std::alloc::{AllocError, Global};

/// How many bytes a body has at most: 8 MiB.
pub const LARGEST_BODY: usize = 8_388_608;

/// The server to which requests come: its name, and the table of its routes.
#[derive(Drop)]
pub struct WireServer {
    pub name: ServerName,
    pub routes: Routes,
}

impl WireServer {
    ghost use Rattle.std.specs.Prelude.{◌≡◌, IfOk, option_map};
    ghost use Rattle.mx_requests.specs.Calls.{route_at};
    ghost use Rattle.mx_requests.specs.Targets.{method_of};

    /// The server of this name. `AllocError` where no memory is left for its routes.
    pub fn new(alloc: Global, name: ServerName) -> Result<WireServer, AllocError>
        ensures { IfOk result (λ server. server.name ≡ name) }
    {
        let routes = Routes::new(alloc)?;
        Ok(WireServer { name, routes })
    }

    /// The one method of a target's route; none where no route has its path. It takes no memory.
    ///
    /// Source: RFC 9110, "405 Method Not Allowed".
    pub fn method_at(&self, target: &[u8]) -> Option<&'static str>
        ensures { option_map (λ method. method.now) result ≡ option_map method_of (route_at target.now) }
    {
        let target = text_of(target)?;
        let route = self.routes.route_of(path_of(target))?;
        Some(route.method())
    }
}

/// A request of another server, as it came: its method, its target, its first Authorization header, and its body. All
/// but the method are any bytes.
///
/// Source: the Server-Server API of the Matrix specification, and RFC 9110 and 9112.
#[derive(Debug, Drop)]
pub struct WireRequest {
    pub method: String,
    pub target: Vec<u8>,
    pub authorization: Option<Vec<u8>>,
    pub body: Vec<u8>,
}

/// What a request to this server asks for, or its first fault.
///
/// In this order: `TooLarge` for a body over [`LARGEST_BODY`]; `UnknownPath` where no route has the path, or the target
/// is not UTF-8; `UnknownMethod` where the route has another; `NoOrigin` or `WrongDestination` by the header, where one
/// that is not UTF-8 counts as none; `Invalid` for the segments of the path; `Missing` or `Invalid` for the parameters;
/// `NotJson`, `WrongForm` or `Invalid` for the body. `Memory` is told of no request that has one of the first three.
///
/// The body is read over the scratch, which is kept from request to request where many follow each other.
///
/// Source: the Server-Server API of the Matrix specification: "Request Authentication", "Transactions", "Retrieving
/// events", "Backfilling and retrieving missing events" and "Joining Rooms".
#[tactic(auto, unfolding(crate::specs::Calls::call_under))]
pub fn read_request<V: Verifier>(
    alloc: Global,
    scratch: &mut Scratch,
    server: &WireServer,
    verifier: &V,
    request: &WireRequest,
) -> Result<WireCall, Fault>
    ensures ok { IfOk result (λ call.
        definition.call_of (V.judges verifier.now) server.now.name (request_shown request.now) ≡ Ok (call_shown call)) }
    ensures err { IfErr result (λ fault. (fault ≡ Fault.Memory)
        ⊎ (definition.call_of (V.judges verifier.now) server.now.name (request_shown request.now) ≡ Err fault)) }
    ensures memory { IfErr result (λ fault. fault ≡ Fault.Memory → IsOk (definition.routed (request_shown request.now))) }
{
    let (route, target) = routed(&server.routes, request)?;
    let origin = origin_of(alloc, &server.name, header_text(&request.authorization))?;
    let call = call_on(
        alloc,
        scratch,
        verifier,
        route,
        origin,
        target,
        &request.body,
    )?;
    Ok(call)
}

// The route of a request, by its body's length, its path and its method, and its target, which is text.
fn routed<'r>(routes: &Routes, request: &'r WireRequest) -> Result<(Route, &'r str), Fault>
    ensures route { IfOk result (λ found. definition.routed (request_shown request.now) ≡ Ok found.0) }
    ensures target { IfOk result (λ found. found.1.now ≡ request.now.target.items) }
    ensures err { IfErr result (λ fault. definition.routed (request_shown request.now) ≡ Err fault) }
    ensures memory { IfErr result (λ fault. fault ≢ Fault.Memory) }
{
    if request.body.len() > LARGEST_BODY {
        return Err(Fault::TooLarge);
    }
    let Some(target) = text_of(&request.target) else {
        return Err(Fault::UnknownPath);
    };
    let Some(route) = routes.route_of(path_of(target)) else {
        return Err(Fault::UnknownPath);
    };
    if request.method.as_str() != route.method() {
        return Err(Fault::UnknownMethod);
    }
    Ok((route, target))
}

// The text that a header is, if there is one and it is text.
fn header_text(header: &Option<Vec<u8>>) -> Option<&str>
    ensures { option_map (λ text. text.now) result
        ≡ option_and_then definition.text_of (option_map (λ header. header.items) header.now) }
{
    match header {
        Some(bytes) => text_of(bytes),
        None => None,
    }
}

// The text that bytes are.
fn text_of(bytes: &[u8]) -> Option<&str>
    ensures { option_map (λ text. text.now) result ≡ definition.text_of bytes.now }
{
    match str::from_utf8(bytes) {
        Ok(text) => Some(text),
        Err(_) => None,
    }
}
