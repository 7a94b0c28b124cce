// What a request of a known origin asks for, route by route.
ghost use Rattle.std.specs.Prelude.{◌≡◌, ◌⊎◌, Ok, Err, IfErr, IfOk, None, Some, false, true};
ghost use Rattle.mx_pdu.specs.Format.{is_well_formed};
ghost use Rattle.mx_requests.specs.Calls as definition;
ghost use Rattle.mx_requests.specs.CallsShown.{call_shown};
ghost use Rattle.mx_pdu.specs.Offers.{offer_by};
ghost use Rattle.serde_json.specs.Data.{Data};
ghost use Rattle.mx_requests.specs.Requests.{body_value as body_value_of};
ghost use Rattle.mx_requests.specs.Targets.{parameters};

use crate::bodies::missing_events::missing_query;
use crate::bodies::transactions::{event_of_body, transaction_events};
use crate::faults::{Fault, InvalidPart};
use crate::targets::parameters::parameters_of;
use crate::targets::route_parameters::{
    event_id_parameter, limit_parameter, v_parameters, version_parameters,
};
use crate::targets::routes::Route;
use crate::targets::segments::{event_at, room_at, txn_at, user_at};
use crate::targets::{path_of, query_of};
use json::Scratch;
use mx_auth::membership_of;
use mx_ident::{EventId, RoomId, ServerName};
use mx_pdu::{Offered, Pdu, Verifier};
use mx_redact::is_text;
use mx_room::{EventIdList, Query};
use std::alloc::Global;

/// What a server asks for.
///
/// `Sends`: a transaction with its number and its well-formed events. `Asks`: a query. `Joins`: a join that is to be
/// let in. An event is as it is offered to its room, with its id and the verifier's answer on its signatures.
///
/// Source: the Matrix specification, Server-Server API, "Transactions", "Retrieving events", "Backfilling and retrieving
/// missing events" and "Joining Rooms".
#[derive(Debug, Drop)]
pub enum WireCall {
    Sends {
        origin: ServerName,
        transaction: String,
        events: Vec<Offered>,
    },
    Asks {
        origin: ServerName,
        query: Query,
    },
    Joins {
        origin: ServerName,
        event: Offered,
    },
}

/// What a request of this origin asks for on a route.
///
/// The first of: `Invalid` for a segment of the path; `Missing` or `Invalid` for a parameter; `NotJson`, `WrongForm` or
/// `Invalid` for the body; and `Memory`. Source: the Server-Server API of the Matrix specification, by route.
pub(crate) fn call_on<V: Verifier>(
    alloc: Global,
    scratch: &mut Scratch,
    verifier: &V,
    route: Route,
    origin: ServerName,
    target: &str,
    body: &[u8],
) -> Result<WireCall, Fault>
    ensures ok { IfOk result (λ call.
        definition.call_on (offer_by (V.judges verifier.now)) route origin target.now body.now ≡ Ok (call_shown call)) }
    ensures err { IfErr result (λ fault. (fault ≡ Fault.Memory)
        ⊎ (definition.call_on (offer_by (V.judges verifier.now)) route origin target.now body.now ≡ Err fault)) }
{
    let path = path_of(target);
    let query = query_of(target);
    match route {
        Route::Send => send_call(alloc, scratch, verifier, origin, path, body),
        Route::Event => event_call(alloc, origin, path),
        Route::State => state_call(alloc, origin, path, query),
        Route::StateIds => state_ids_call(alloc, origin, path, query),
        Route::EventAuth => event_auth_call(alloc, origin, path),
        Route::Backfill => backfill_call(alloc, origin, path, query),
        Route::GetMissingEvents => missing_events_call(alloc, scratch, origin, path, body),
        Route::MakeJoin => make_join_call(alloc, origin, path, query),
        Route::SendJoin => send_join_call(alloc, scratch, verifier, origin, path, body),
    }
}

fn send_call<V: Verifier>(
    alloc: Global,
    scratch: &mut Scratch,
    verifier: &V,
    origin: ServerName,
    path: &str,
    body: &[u8],
) -> Result<WireCall, Fault>
    ensures ok { IfOk result (λ call.
        definition.send_call (offer_by (V.judges verifier.now)) origin path.now body.now ≡ Ok (call_shown call)) }
    ensures err { IfErr result (λ fault. (fault ≡ Fault.Memory)
        ⊎ (definition.send_call (offer_by (V.judges verifier.now)) origin path.now body.now ≡ Err fault)) }
{
    let transaction = txn_at(alloc, path, 0)?;
    let events = events_offered(alloc, scratch, verifier, body)?;
    Ok(WireCall::Sends {
        origin,
        transaction,
        events,
    })
}

// The events of a transaction; `WrongForm` where the body is none.
fn events_offered<V: Verifier>(
    alloc: Global,
    scratch: &mut Scratch,
    verifier: &V,
    body: &[u8],
) -> Result<Vec<Offered>, Fault>
    ensures ok { IfOk result (λ events. (d : Data) × (body_value_of body.now ≡ Ok d)
        × (definition.events_offered (offer_by (V.judges verifier.now)) d ≡ Some events.items)) }
    ensures err { IfErr result (λ fault. (fault ≡ Fault.Memory) ⊎ ((body_value_of body.now ≡ Err fault)
        ⊎ ((fault ≡ Fault.WrongForm) × (d : Data) × (body_value_of body.now ≡ Ok d)
        × (definition.events_offered (offer_by (V.judges verifier.now)) d ≡ None)))) }
{
    match transaction_events(alloc, scratch, body, verifier)? {
        Some(events) => Ok(events),
        None => Err(Fault::WrongForm),
    }
}

fn event_call(alloc: Global, origin: ServerName, path: &str) -> Result<WireCall, Fault>
    ensures ok { IfOk result (λ call. definition.event_call origin path.now ≡ Ok (call_shown call)) }
    ensures err { IfErr result (λ fault. (fault ≡ Fault.Memory) ⊎ (definition.event_call origin path.now ≡ Err fault)) }
{
    let event = event_at(alloc, path, 0)?;
    let query = Query::Event(event);
    Ok(WireCall::Asks { origin, query })
}

fn state_call(alloc: Global, origin: ServerName, path: &str, query: &str) -> Result<WireCall, Fault>
    ensures ok { IfOk result (λ call.
        definition.state_call origin path.now (parameters query.now) ≡ Ok (call_shown call)) }
    ensures err { IfErr result (λ fault. (fault ≡ Fault.Memory)
        ⊎ (definition.state_call origin path.now (parameters query.now) ≡ Err fault)) }
{
    let room = room_at(alloc, path, 0)?;
    let given = parameters_of(alloc, query)?;
    let event = event_id_parameter(alloc, &given)?;
    let query = Query::State { room, event };
    Ok(WireCall::Asks { origin, query })
}

fn state_ids_call(
    alloc: Global,
    origin: ServerName,
    path: &str,
    query: &str,
) -> Result<WireCall, Fault>
    ensures ok { IfOk result (λ call.
        definition.state_ids_call origin path.now (parameters query.now) ≡ Ok (call_shown call)) }
    ensures err { IfErr result (λ fault. (fault ≡ Fault.Memory)
        ⊎ (definition.state_ids_call origin path.now (parameters query.now) ≡ Err fault)) }
{
    let room = room_at(alloc, path, 0)?;
    let given = parameters_of(alloc, query)?;
    let event = event_id_parameter(alloc, &given)?;
    let query = Query::StateIds { room, event };
    Ok(WireCall::Asks { origin, query })
}

fn event_auth_call(alloc: Global, origin: ServerName, path: &str) -> Result<WireCall, Fault>
    ensures ok { IfOk result (λ call. definition.event_auth_call origin path.now ≡ Ok (call_shown call)) }
    ensures err { IfErr result (λ fault. (fault ≡ Fault.Memory)
        ⊎ (definition.event_auth_call origin path.now ≡ Err fault)) }
{
    let room = room_at(alloc, path, 0)?;
    let event = event_at(alloc, path, 1)?;
    let query = Query::EventAuth { room, event };
    Ok(WireCall::Asks { origin, query })
}

fn backfill_call(
    alloc: Global,
    origin: ServerName,
    path: &str,
    query: &str,
) -> Result<WireCall, Fault>
    ensures ok { IfOk result (λ call.
        definition.backfill_call origin path.now (parameters query.now) ≡ Ok (call_shown call)) }
    ensures err { IfErr result (λ fault. (fault ≡ Fault.Memory)
        ⊎ (definition.backfill_call origin path.now (parameters query.now) ≡ Err fault)) }
{
    let room = room_at(alloc, path, 0)?;
    let given = parameters_of(alloc, query)?;
    let from = v_parameters(alloc, &given)?;
    let limit = limit_parameter(&given)?;
    let from = EventIdList::new(from);
    let query = Query::Backfill { room, from, limit };
    Ok(WireCall::Asks { origin, query })
}

fn missing_events_call(
    alloc: Global,
    scratch: &mut Scratch,
    origin: ServerName,
    path: &str,
    body: &[u8],
) -> Result<WireCall, Fault>
    ensures ok { IfOk result (λ call.
        definition.missing_events_call origin path.now body.now ≡ Ok (call_shown call)) }
    ensures err { IfErr result (λ fault. (fault ≡ Fault.Memory)
        ⊎ (definition.missing_events_call origin path.now body.now ≡ Err fault)) }
{
    let room = room_at(alloc, path, 0)?;
    let query = missing_query(alloc, scratch, room, body)?;
    Ok(WireCall::Asks { origin, query })
}

fn make_join_call(
    alloc: Global,
    origin: ServerName,
    path: &str,
    query: &str,
) -> Result<WireCall, Fault>
    ensures ok { IfOk result (λ call.
        definition.make_join_call origin path.now (parameters query.now) ≡ Ok (call_shown call)) }
    ensures err { IfErr result (λ fault. (fault ≡ Fault.Memory)
        ⊎ (definition.make_join_call origin path.now (parameters query.now) ≡ Err fault)) }
{
    let room = room_at(alloc, path, 0)?;
    let user = user_at(alloc, path, 1)?;
    let given = parameters_of(alloc, query)?;
    let versions = version_parameters(alloc, &given)?;
    let query = Query::MakeJoin {
        room,
        user,
        versions,
    };
    Ok(WireCall::Asks { origin, query })
}

fn send_join_call<V: Verifier>(
    alloc: Global,
    scratch: &mut Scratch,
    verifier: &V,
    origin: ServerName,
    path: &str,
    body: &[u8],
) -> Result<WireCall, Fault>
    ensures ok { IfOk result (λ call.
        definition.send_join_call (offer_by (V.judges verifier.now)) origin path.now body.now ≡ Ok (call_shown call)) }
    ensures err { IfErr result (λ fault. (fault ≡ Fault.Memory)
        ⊎ (definition.send_join_call (offer_by (V.judges verifier.now)) origin path.now body.now ≡ Err fault)) }
{
    let room = room_at(alloc, path, 0)?;
    let id = event_at(alloc, path, 1)?;
    let event = event_offered(alloc, scratch, verifier, body)?;
    let call = join_of(origin, &room, &id, event)?;
    Ok(call)
}

// The event that a body is, as it is offered; `WrongForm` where it is none.
fn event_offered<V: Verifier>(
    alloc: Global,
    scratch: &mut Scratch,
    verifier: &V,
    body: &[u8],
) -> Result<Offered, Fault>
    ensures ok { IfOk result (λ event. (d : Data) × (body_value_of body.now ≡ Ok d)
        × (is_well_formed d ≡ true) × (event ≡ offer_by (V.judges verifier.now) d)) }
    ensures err { IfErr result (λ fault. (fault ≡ Fault.Memory) ⊎ ((body_value_of body.now ≡ Err fault)
        ⊎ ((fault ≡ Fault.WrongForm) × (d : Data) × (body_value_of body.now ≡ Ok d)
        × (is_well_formed d ≡ false)))) }
{
    match event_of_body(alloc, scratch, body, verifier)? {
        Some(event) => Ok(event),
        None => Err(Fault::WrongForm),
    }
}

// The event as a join of this room with this id; `Invalid` where it is another event, or no join of its sender.
fn join_of(
    origin: ServerName,
    room: &RoomId,
    id: &EventId,
    event: Offered,
) -> Result<WireCall, Fault>
    ensures ok { IfOk result (λ call. definition.join_of origin room.now id.now event ≡ Ok (call_shown call)) }
    ensures err { IfErr result (λ fault. definition.join_of origin room.now id.now event ≡ Err fault) }
{
    if event.pdu.room_id() != room {
        return Err(Fault::Invalid(InvalidPart::RoomId));
    }
    if &event.id != id {
        return Err(Fault::Invalid(InvalidPart::EventId));
    }
    if !is_own_join(&event.pdu) {
        return Err(Fault::Invalid(InvalidPart::Event));
    }
    Ok(WireCall::Joins { origin, event })
}

// Whether the event is a join whose state key is its sender.
fn is_own_join(event: &Pdu) -> bool
    ensures { result ≡ definition.is_own_join event.now }
{
    event.kind() == "m.room.member"
        && is_text(event.state_key(), event.sender().as_str())
        && is_text(membership_of(event), "join")
}
