// The answer to a query.
ghost use Rattle.std.specs.Prelude.{◌≡◌, ◌<◌, IfOk, IsTrue, OnErr, is_ok, is_some, length};
ghost use Rattle.mx_room.specs.Answers as answers;
ghost use Rattle.mx_room.specs.Queries.{query_answer, room_named};

use crate::moments::Moment;
use crate::queries::history_queries::{backfill_answer, missing_answer};
use crate::queries::join_queries::join_answer;
use crate::queries::served_events::shown_event;
use crate::queries::state_queries::{event_auth_answer, state_answer, state_ids_answer};
use crate::queries::{Denied, Query, QueryReply};
use mx_access::{Viewer, acl_allows};
use mx_ident::{EventId, ServerName};
use mx_receipt::Timeline;
use std::alloc::{AllocError, Global};

/// The answer to a server's query, at a moment.
///
/// The access control list is asked first, and then whether the server is in the room, but not for a query that names no
/// room. Of such a query a look-up of its id comes first, and nothing more is asked where the room does not hold the event.
/// A server that asks how one of its users can join need not be in the room, and whether it is, is not looked at.
pub(crate) fn answer_in(
    alloc: Global,
    timeline: &Timeline,
    origin: &ServerName,
    now: Moment,
    query: &Query,
) -> Result<Result<QueryReply, Denied>, AllocError>
    ensures reply { IfOk result (λ reply. reply ≡ query_answer timeline.now.kept origin.now now query.now) }
    ensures memory { OnErr result (IsTrue (is_ok (query_answer timeline.now.kept origin.now now query.now))) }
{
    if asks_unheld(timeline, query) {
        return Ok(Err(Denied::NotFound));
    }
    if names_room(query) && !acl_allows(timeline, origin) {
        return Ok(Err(Denied::AccessList));
    }
    if let Query::MakeJoin {
        room,
        user,
        versions,
    } = query
    {
        let template = join_answer(alloc, timeline, origin, now, room, user, versions)?;
        return Ok(template);
    }
    let viewer = Viewer::of(timeline, origin);
    if is_for_members(query) && !viewer.is_in_room() {
        return Ok(Err(Denied::NotInRoom));
    }
    let answer = allowed_answer(alloc, timeline, &viewer, now, query)?;
    Ok(answer)
}

// Whether it is a query for an event by its id alone, which the room does not hold.
fn asks_unheld(timeline: &Timeline, query: &Query) -> bool
    ensures { result ≡ answers.asks_unheld timeline.now.kept query.now }
{
    match query {
        Query::Event(id) => timeline.find(id).is_none(),
        _ => false,
    }
}

fn names_room(query: &Query) -> bool
    ensures { result ≡ is_some (room_named query.now) }
{
    !matches!(query, Query::Event(_))
}

// Whether a server that is not in the room may not ask it.
fn is_for_members(query: &Query) -> bool
    ensures { result ≡ answers.is_for_members query.now }
{
    !matches!(query, Query::Event(_) | Query::MakeJoin { .. })
}

// The answer to a query of a server that may have it answered.
fn allowed_answer(
    alloc: Global,
    timeline: &Timeline,
    viewer: &Viewer<'_, '_>,
    now: Moment,
    query: &Query,
) -> Result<Result<QueryReply, Denied>, AllocError>
    requires { viewer.now.kept ≡ timeline.now.kept }
    ensures reply { IfOk result (λ reply. reply
        ≡ answers.allowed_answer timeline.now.kept viewer.now.server now query.now) }
    ensures memory { OnErr result (IsTrue (is_ok
        (answers.allowed_answer timeline.now.kept viewer.now.server now query.now))) }
{
    match query {
        Query::Event(id) => event_answer(alloc, timeline, viewer, id),
        Query::State { event, .. } => state_answer(alloc, timeline, event),
        Query::StateIds { event, .. } => state_ids_answer(alloc, timeline, event),
        Query::EventAuth { event, .. } => event_auth_answer(alloc, timeline, event),
        Query::Backfill { from, limit, .. } => {
            backfill_answer(alloc, timeline, viewer, from.as_slice(), *limit)
        }
        Query::Missing {
            earliest,
            latest,
            limit,
            min_depth,
            ..
        } => missing_answer(
            alloc,
            timeline,
            viewer,
            earliest.as_slice(),
            latest.as_slice(),
            *limit,
            *min_depth,
        ),
        Query::MakeJoin {
            room,
            user,
            versions,
        } => join_answer(alloc, timeline, viewer.server(), now, room, user, versions),
    }
}

// What the server is shown of the event with this id.
#[tactic(auto, unfolding(crate::specs::Queries::event_shown))]
fn event_answer(
    alloc: Global,
    timeline: &Timeline,
    viewer: &Viewer<'_, '_>,
    id: &EventId,
) -> Result<Result<QueryReply, Denied>, AllocError>
    requires { viewer.now.kept ≡ timeline.now.kept }
    ensures reply { IfOk result (λ reply. reply
        ≡ answers.event_answer timeline.now.kept viewer.now.server id.now) }
    ensures memory { OnErr result (IsTrue (is_ok
        (answers.event_answer timeline.now.kept viewer.now.server id.now))) }
{
    match timeline.find(id) {
        Some(number) => match shown_event(alloc, viewer, number)? {
            Some(event) => Ok(Ok(QueryReply::Event(event))),
            None => Ok(Err(Denied::NotFound)),
        },
        None => Ok(Err(Denied::NotFound)),
    }
}
