// Events in the form in which they are given to a server.
ghost use Rattle.std.specs.Prelude.{◌≡◌, ◌<◌, All, IfOk, IsTrue, OnErr, filter_map, is_some, length, map};
ghost use Rattle.mx_access.specs.Access as access;
ghost use Rattle.mx_receipt.specs.Receipt.{rows_of};
ghost use Rattle.mx_room.specs.Queries as definition;

use crate::event_lists::{EventIdList, EventList};
use mx_access::{Viewer, served};
use mx_graph::EventNo;
use mx_pdu::Pdu;
use mx_receipt::Timeline;
use std::alloc::{AllocError, Global};

/// These events, each as it is served.
pub(crate) fn all_served(
    alloc: Global,
    timeline: &Timeline,
    events: &[EventNo],
) -> Result<EventList, AllocError>
    requires { All (λ event. event < length timeline.now.kept) events.now }
    ensures { IfOk result (λ list. list ≡ definition.all_served timeline.now.kept events.now) }
{
    let mut given = Vec::with_capacity(alloc, events.len())?;
    for event in events {
        given.push(served_event(alloc, timeline, *event)?)?;
    }
    Ok(EventList::new(given))
}

/// An event as it is served.
pub(crate) fn served_event(
    alloc: Global,
    timeline: &Timeline,
    number: EventNo,
) -> Result<Pdu, AllocError>
    requires { number < length timeline.now.kept }
    ensures { IfOk result (λ event. event ≡ access.served timeline.now.kept number) }
{
    let event = served(alloc, timeline, number)?;
    let given = event.into_owned()?;
    Ok(given)
}

/// Those of these events that the server is shown, each as it is shown.
pub(crate) fn all_shown(
    alloc: Global,
    viewer: &Viewer<'_, '_>,
    events: &[EventNo],
) -> Result<EventList, AllocError>
    requires { All (λ event. event < length viewer.now.kept) events.now }
    ensures { IfOk result (λ list. list ≡ filter_map (access.shown viewer.now.kept viewer.now.server) events.now) }
{
    let mut given = Vec::new(alloc);
    for event in events {
        if let Some(shown) = shown_event(alloc, viewer, *event)? {
            given.push(shown)?;
        }
    }
    Ok(EventList::new(given))
}

/// What the server is shown of an event. `AllocError` where it is shown and no memory is left.
pub(crate) fn shown_event(
    alloc: Global,
    viewer: &Viewer<'_, '_>,
    number: EventNo,
) -> Result<Option<Pdu>, AllocError>
    requires { number < length viewer.now.kept }
    ensures event { IfOk result (λ event. event ≡ access.shown viewer.now.kept viewer.now.server number) }
    ensures memory { OnErr result (IsTrue (is_some (access.shown viewer.now.kept viewer.now.server number))) }
{
    match viewer.shown(alloc, number)? {
        Some(event) => {
            let given = event.into_owned()?;
            Ok(Some(given))
        }
        None => Ok(None),
    }
}

/// The ids of these events.
pub(crate) fn ids_of(
    alloc: Global,
    timeline: &Timeline,
    events: &[EventNo],
) -> Result<EventIdList, AllocError>
    requires { All (λ event. event < length timeline.now.kept) events.now }
    ensures { IfOk result (λ list. list ≡ definition.ids_of (rows_of timeline.now.kept) events.now) }
{
    let mut ids = Vec::with_capacity(alloc, events.len())?;
    for event in events {
        ids.push(timeline.row(*event).id.clone()?)?;
    }
    Ok(EventIdList::new(ids))
}
