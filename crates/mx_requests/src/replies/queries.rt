// The replies to queries.
ghost use Rattle.std.specs.Prelude.{◌≡◌, ℕ, ◌++◌, List, IfOk};
ghost use Rattle.serde_json.specs.Data.{object, string};
ghost use Rattle.serde_json.specs.View.{members_view, view};
ghost use Rattle.mx_canon.specs.Canonical.{canonical_text};
ghost use Rattle.mx_requests.specs.ReplyBodies as definition;
ghost use Rattle.mx_requests.specs.RepliesShown.{reply_shown};

use crate::faults::Fault;
use crate::replies::pieces::{events_length, ids_length, write_events, write_ids, write_number};
use crate::replies::{ReplyBody, WireReply, fault_reply};
use mx_auth::RoomVersion;
use mx_canon::{TextBuffer, TextSink, write_key, write_object, write_string};
use mx_ident::{EventId, ServerName};
use mx_pdu::Pdu;
use mx_room::{Denied, JoinTemplate, Moment, Query, QueryReply};
use serde_json::{Map, Value};
use std::alloc::{AllocError, Global};

// How many bytes a body has at most beside its events, its ids and the server's name: keys, brackets and a number.
const FRAME: usize = 96;
// How many bytes the body with what a join is to be made of has mostly.
const USUAL_TEMPLATE: usize = 1024;

/// The reply of the server of this name, at this moment, to a query that was answered so.
///
/// What was given has status 200, and what was denied the fault for it. `AllocError` where no memory was left. Source:
/// the Matrix specification, Server-Server API, "Retrieving events", "Backfilling and retrieving missing events" and
/// "Joining Rooms".
pub fn query_reply(
    alloc: Global,
    name: &ServerName,
    now: Moment,
    query: &Query,
    answered: Result<QueryReply, Denied>,
) -> Result<WireReply, AllocError>
    ensures { IfOk result (λ reply. reply_shown reply ≡ definition.query_reply name.now now query.now answered) }
{
    match answered {
        Ok(reply) => {
            let body = query_body(alloc, name, now, query, reply)?;
            Ok(WireReply {
                status: 200,
                body: ReplyBody::Made(body),
            })
        }
        Err(denied) => fault_reply(alloc, Fault::Denied(denied)),
    }
}

fn query_body(
    alloc: Global,
    name: &ServerName,
    now: Moment,
    query: &Query,
    reply: QueryReply,
) -> Result<Vec<u8>, AllocError>
    ensures { IfOk result (λ body.
        body.items ≡ canonical_text (definition.query_data name.now now query.now reply)) }
{
    match reply {
        QueryReply::Event(event) => sent_body(alloc, name, now, &[event]),
        QueryReply::State { state, auth_chain } => {
            state_body(alloc, state.as_slice(), auth_chain.as_slice())
        }
        QueryReply::StateIds { state, auth_chain } => {
            state_ids_body(alloc, state.as_slice(), auth_chain.as_slice())
        }
        QueryReply::EventAuth(chain) => chain_body(alloc, chain.as_slice()),
        QueryReply::Events(events) => events_body(alloc, name, now, query, events.as_slice()),
        QueryReply::Template(version, template) => template_body(alloc, name, version, template),
    }
}

fn events_body(
    alloc: Global,
    name: &ServerName,
    now: Moment,
    query: &Query,
    events: &[Pdu],
) -> Result<Vec<u8>, AllocError>
    ensures { IfOk result (λ body.
        body.items ≡ canonical_text (definition.events_data name.now now query.now events.now)) }
{
    match query {
        Query::Missing { .. } => missing_body(alloc, events),
        _ => sent_body(alloc, name, now, events),
    }
}

fn sent_body(
    alloc: Global,
    name: &ServerName,
    now: Moment,
    events: &[Pdu],
) -> Result<Vec<u8>, AllocError>
    ensures { IfOk result (λ body.
        body.items ≡ canonical_text (definition.sent_events name.now now events.now)) }
{
    let length = events_length(events)
        .saturating_add(name.as_str().len())
        .saturating_add(FRAME);
    let mut body = TextBuffer::with_capacity(alloc, length)?;
    write_sent(&mut body, name, now.milliseconds(), events);
    let bytes = body.into_bytes()?;
    Ok(bytes)
}

fn write_sent<S: TextSink>(sink: &mut S, name: &ServerName, now: u64, events: &[Pdu])
    ensures { (taken : List ℕ) → S.has_taken sink.old taken
        → S.has_taken sink.new (taken ++ canonical_text (definition.sent_events name.now now events.now)) }
{
    sink.put(b"{");
    write_key(sink, false, b"origin");
    write_string(sink, name.as_str().as_bytes());
    write_key(sink, true, b"origin_server_ts");
    write_number(sink, now);
    write_key(sink, true, b"pdus");
    write_events(sink, events);
    sink.put(b"}");
}

fn state_body(alloc: Global, state: &[Pdu], auth_chain: &[Pdu]) -> Result<Vec<u8>, AllocError>
    ensures { IfOk result (λ body.
        body.items ≡ canonical_text (definition.state_data state.now auth_chain.now)) }
{
    let length = events_length(state)
        .saturating_add(events_length(auth_chain))
        .saturating_add(FRAME);
    let mut body = TextBuffer::with_capacity(alloc, length)?;
    write_state(&mut body, state, auth_chain);
    let bytes = body.into_bytes()?;
    Ok(bytes)
}

fn write_state<S: TextSink>(sink: &mut S, state: &[Pdu], auth_chain: &[Pdu])
    ensures { (taken : List ℕ) → S.has_taken sink.old taken
        → S.has_taken sink.new (taken ++ canonical_text (definition.state_data state.now auth_chain.now)) }
{
    sink.put(b"{");
    write_key(sink, false, b"auth_chain");
    write_events(sink, auth_chain);
    write_key(sink, true, b"pdus");
    write_events(sink, state);
    sink.put(b"}");
}

fn state_ids_body(
    alloc: Global,
    state: &[EventId],
    auth_chain: &[EventId],
) -> Result<Vec<u8>, AllocError>
    ensures { IfOk result (λ body.
        body.items ≡ canonical_text (definition.state_ids_data state.now auth_chain.now)) }
{
    let length = ids_length(state.len())
        .saturating_add(ids_length(auth_chain.len()))
        .saturating_add(FRAME);
    let mut body = TextBuffer::with_capacity(alloc, length)?;
    write_state_ids(&mut body, state, auth_chain);
    let bytes = body.into_bytes()?;
    Ok(bytes)
}

fn write_state_ids<S: TextSink>(sink: &mut S, state: &[EventId], auth_chain: &[EventId])
    ensures { (taken : List ℕ) → S.has_taken sink.old taken
        → S.has_taken sink.new (taken ++ canonical_text (definition.state_ids_data state.now auth_chain.now)) }
{
    sink.put(b"{");
    write_key(sink, false, b"auth_chain_ids");
    write_ids(sink, auth_chain);
    write_key(sink, true, b"pdu_ids");
    write_ids(sink, state);
    sink.put(b"}");
}

fn chain_body(alloc: Global, auth_chain: &[Pdu]) -> Result<Vec<u8>, AllocError>
    ensures { IfOk result (λ body. body.items ≡ canonical_text (definition.chain_data auth_chain.now)) }
{
    let length = events_length(auth_chain).saturating_add(FRAME);
    let mut body = TextBuffer::with_capacity(alloc, length)?;
    write_chain(&mut body, auth_chain);
    let bytes = body.into_bytes()?;
    Ok(bytes)
}

fn write_chain<S: TextSink>(sink: &mut S, auth_chain: &[Pdu])
    ensures { (taken : List ℕ) → S.has_taken sink.old taken
        → S.has_taken sink.new (taken ++ canonical_text (definition.chain_data auth_chain.now)) }
{
    sink.put(b"{");
    write_key(sink, false, b"auth_chain");
    write_events(sink, auth_chain);
    sink.put(b"}");
}

fn missing_body(alloc: Global, events: &[Pdu]) -> Result<Vec<u8>, AllocError>
    ensures { IfOk result (λ body. body.items ≡ canonical_text (definition.missing_data events.now)) }
{
    let length = events_length(events).saturating_add(FRAME);
    let mut body = TextBuffer::with_capacity(alloc, length)?;
    write_missing(&mut body, events);
    let bytes = body.into_bytes()?;
    Ok(bytes)
}

fn write_missing<S: TextSink>(sink: &mut S, events: &[Pdu])
    ensures { (taken : List ℕ) → S.has_taken sink.old taken
        → S.has_taken sink.new (taken ++ canonical_text (definition.missing_data events.now)) }
{
    sink.put(b"{");
    write_key(sink, false, b"events");
    write_events(sink, events);
    sink.put(b"}");
}

fn template_body(
    alloc: Global,
    name: &ServerName,
    version: RoomVersion,
    template: JoinTemplate,
) -> Result<Vec<u8>, AllocError>
    ensures { IfOk result (λ body.
        body.items ≡ canonical_text (definition.template_data version (definition.with_origin name.now template))) }
{
    let event = with_origin(alloc, name, template)?;
    let mut body = TextBuffer::with_capacity(alloc, USUAL_TEMPLATE)?;
    write_template(&mut body, version, &event);
    let bytes = body.into_bytes()?;
    Ok(bytes)
}

fn with_origin(
    alloc: Global,
    name: &ServerName,
    template: JoinTemplate,
) -> Result<Map<String, Value>, AllocError>
    ensures { IfOk result (λ event. object (members_view event.entries) ≡ definition.with_origin name.now template) }
{
    let mut event = template.into_map();
    let key = String::from_str(alloc, "origin")?;
    let origin = text_value(alloc, name.as_str())?;
    event.insert(key, origin)?;
    Ok(event)
}

fn text_value(alloc: Global, text: &str) -> Result<Value, AllocError>
    ensures { IfOk result (λ value. view value ≡ string text.now) }
{
    let text = String::from_str(alloc, text)?;
    Ok(Value::String(text))
}

fn write_template<S: TextSink>(sink: &mut S, version: RoomVersion, event: &Map<String, Value>)
    ensures { (taken : List ℕ) → S.has_taken sink.old taken → S.has_taken sink.new
        (taken ++ canonical_text (definition.template_data version (object (members_view event.now.entries)))) }
{
    sink.put(b"{");
    write_key(sink, false, b"event");
    write_object(sink, event);
    write_key(sink, true, b"room_version");
    write_string(sink, version.text().as_bytes());
    sink.put(b"}");
}
