// Queries for a state, and for an auth chain.
ghost use Rattle.std.specs.Prelude.{◌≡◌, ◌<◌, All, IfOk, IfSome, IsTrue, OnErr, is_ok, length};
ghost use Rattle.mx_graph.specs.StateMap.{events_of};
ghost use Rattle.mx_receipt.specs.Receipt.{rows_of, state_before};
ghost use Rattle.mx_room.specs.Answers as answers;
ghost use Rattle.mx_room.specs.Queries as definition;

use crate::queries::event_orders::by_id;
use crate::queries::served_events::{all_served, ids_of};
use crate::queries::{Denied, QueryReply};
use mx_graph::EventNo;
use mx_ident::EventId;
use mx_receipt::{Timeline, timeline_is_sound};
use std::alloc::{AllocError, Global};

/// The state before an event and its auth chain.
///
/// Source: the Matrix specification, Server-Server API, "Retrieving events".
pub(crate) fn state_answer(
    alloc: Global,
    timeline: &Timeline,
    id: &EventId,
) -> Result<Result<QueryReply, Denied>, AllocError>
    ensures reply { IfOk result (λ reply. reply ≡ answers.state_answer timeline.now.kept id.now) }
    ensures memory { OnErr result (IsTrue (is_ok (answers.state_answer timeline.now.kept id.now))) }
{
    match standing(timeline, id) {
        Some(number) => {
            let reply = state_reply(alloc, timeline, number)?;
            Ok(Ok(reply))
        }
        None => Ok(Err(Denied::NotFound)),
    }
}

fn state_reply(
    alloc: Global,
    timeline: &Timeline,
    number: EventNo,
) -> Result<QueryReply, AllocError>
    requires { number < length timeline.now.kept }
    ensures { IfOk result (λ reply. reply
        ≡ definition.state_reply timeline.now.kept (events_of (state_before timeline.now.kept number))) }
{
    let events = events_before(alloc, timeline, number)?;
    let chain = chain_by_id(alloc, timeline, &events)?;
    let state = all_served(alloc, timeline, &events)?;
    let auth_chain = all_served(alloc, timeline, &chain)?;
    Ok(QueryReply::State { state, auth_chain })
}

/// The ids of the state before an event and of its auth chain.
///
/// Source: the Matrix specification, Server-Server API, "Retrieving events".
pub(crate) fn state_ids_answer(
    alloc: Global,
    timeline: &Timeline,
    id: &EventId,
) -> Result<Result<QueryReply, Denied>, AllocError>
    ensures reply { IfOk result (λ reply. reply ≡ answers.state_ids_answer timeline.now.kept id.now) }
    ensures memory { OnErr result (IsTrue (is_ok (answers.state_ids_answer timeline.now.kept id.now))) }
{
    match standing(timeline, id) {
        Some(number) => {
            let reply = state_ids_reply(alloc, timeline, number)?;
            Ok(Ok(reply))
        }
        None => Ok(Err(Denied::NotFound)),
    }
}

fn state_ids_reply(
    alloc: Global,
    timeline: &Timeline,
    number: EventNo,
) -> Result<QueryReply, AllocError>
    requires { number < length timeline.now.kept }
    ensures { IfOk result (λ reply. reply
        ≡ definition.state_ids_reply timeline.now.kept (events_of (state_before timeline.now.kept number))) }
{
    let events = events_before(alloc, timeline, number)?;
    let chain = chain_by_id(alloc, timeline, &events)?;
    let state = ids_of(alloc, timeline, &events)?;
    let auth_chain = ids_of(alloc, timeline, &chain)?;
    Ok(QueryReply::StateIds { state, auth_chain })
}

/// The auth chain of an event.
///
/// Source: the Matrix specification, Server-Server API, "Retrieving events".
pub(crate) fn event_auth_answer(
    alloc: Global,
    timeline: &Timeline,
    id: &EventId,
) -> Result<Result<QueryReply, Denied>, AllocError>
    ensures reply { IfOk result (λ reply. reply ≡ answers.event_auth_answer timeline.now.kept id.now) }
    ensures memory { OnErr result (IsTrue (is_ok (answers.event_auth_answer timeline.now.kept id.now))) }
{
    match standing(timeline, id) {
        Some(number) => {
            let chain = chain_by_id(alloc, timeline, &[number])?;
            let auth_chain = all_served(alloc, timeline, &chain)?;
            Ok(Ok(QueryReply::EventAuth(auth_chain)))
        }
        None => Ok(Err(Denied::NotFound)),
    }
}

// The number of an event that is held and was not rejected.
fn standing(timeline: &Timeline, id: &EventId) -> Option<EventNo>
    ensures place { result ≡ definition.standing (rows_of timeline.now.kept) id.now }
    ensures below { IfSome result (λ number. number < length timeline.now.kept) }
{
    let number = timeline.find(id)?;
    if timeline.row(number).rejected {
        return None;
    }
    Some(number)
}

/// The events of the state before an event, in the order of their keys.
pub(crate) fn events_before(
    alloc: Global,
    timeline: &Timeline,
    number: EventNo,
) -> Result<Vec<EventNo>, AllocError>
    requires { number < length timeline.now.kept }
    ensures events { IfOk result (λ events. events.items ≡ events_of (state_before timeline.now.kept number)) }
    ensures below { IfOk result (λ events. All (λ event. event < length timeline.now.kept) events.items) }
{
    timeline_is_sound(timeline);
    let events = timeline.state_before(number).events(alloc)?;
    Ok(events)
}

/// The auth chains of these events in one list, by lesser id.
pub(crate) fn chain_by_id(
    alloc: Global,
    timeline: &Timeline,
    events: &[EventNo],
) -> Result<Vec<EventNo>, AllocError>
    requires { All (λ event. event < length timeline.now.kept) events.now }
    ensures chain { IfOk result (λ chain. chain.items ≡ definition.chain_by_id (rows_of timeline.now.kept) events.now) }
    ensures below { IfOk result (λ chain. All (λ event. event < length timeline.now.kept) chain.items) }
{
    let found = timeline.auth_chain(alloc, events)?;
    let chain = by_id(alloc, timeline, &found)?;
    Ok(chain)
}
