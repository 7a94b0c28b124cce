// What a request is and what it asks, as far as its record tells: it is taken down before the request is answered.
ghost use Rattle.std.specs.Prelude.{◌≡◌, IfOk};
ghost use Rattle.mx_pdu.specs.Event.{room_of, sender_of};

use mx_ident::{EventId, RoomId, ServerName, UserId};
use mx_metrics::RouteLabel;
use mx_pdu::Offered;
use mx_requests::WireCall;
use std::alloc::{AllocError, Global};
use std::time::{Clock, Duration};

// The methods that a record names. Any other one is `other`.
const METHODS: [&str; 7] = ["GET", "PUT", "POST", "HEAD", "DELETE", "OPTIONS", "PATCH"];

/// The method of a request, the route of its target, and when it was taken down, by a clock that only goes on.
#[derive(Clone, Copy, Debug)]
pub struct RequestAbout {
    pub(crate) method: &'static str,
    pub(crate) route: RouteLabel,
    begun: Option<Duration>,
}

impl RequestAbout {
    /// What a request of this method for this target is, now. A method that no route and no client has is `other`.
    pub fn of<C: Clock>(clock: &C, method: &str, target: &[u8]) -> RequestAbout {
        RequestAbout {
            method: method_name(method),
            route: route_of(target),
            begun: clock.monotonic().ok(),
        }
    }

    /// A request of which nothing is known, now.
    pub fn unknown<C: Clock>(clock: &C) -> RequestAbout {
        RequestAbout {
            method: "other",
            route: RouteLabel::Unknown,
            begun: clock.monotonic().ok(),
        }
    }

    /// How many microseconds have passed since it was taken down; 0 where the clock can't be read.
    pub(crate) fn microseconds<C: Clock>(&self, clock: &C) -> u64 {
        match (self.begun, clock.monotonic()) {
            (Some(begun), Ok(now)) => {
                u64::try_from(now.saturating_sub(begun).as_micros()).unwrap_or(u64::MAX)
            }
            _ => 0,
        }
    }
}

fn method_name(method: &str) -> &'static str {
    for name in METHODS {
        if name == method {
            return name;
        }
    }
    "other"
}

// How the paths of all routes begin, before the digit of their version.
const BEGINNING: &[u8] = b"/_matrix/federation/v";

// The route of a target, by the segment behind the version.
fn route_of(target: &[u8]) -> RouteLabel {
    if !target.starts_with(BEGINNING) {
        return RouteLabel::Unknown;
    }
    match target.split(|byte| *byte == b'/' || *byte == b'?').nth(4) {
        Some(segment) => named(segment),
        None => RouteLabel::Unknown,
    }
}

fn named(segment: &[u8]) -> RouteLabel {
    for route in RouteLabel::ALL {
        if route.name().as_bytes() == segment {
            return route;
        }
    }
    RouteLabel::Unknown
}

/// An event that a request offers.
#[derive(Debug, Drop)]
pub struct EventAbout {
    pub id: EventId,
    pub room: RoomId,
    pub sender: UserId,
}

impl EventAbout {
    fn of(offered: &Offered) -> Result<EventAbout, AllocError>
        ensures id { IfOk result (λ about. about.id ≡ offered.now.id) }
        ensures room { IfOk result (λ about. about.room ≡ room_of offered.now.pdu) }
        ensures sender { IfOk result (λ about. about.sender ≡ sender_of offered.now.pdu) }
    {
        let id = offered.id.clone()?;
        let room = offered.pdu.room_id().clone()?;
        let sender = offered.pdu.sender().clone()?;
        Ok(EventAbout { id, room, sender })
    }
}

/// Who asks, about which room, if it is about one alone, and with which events.
#[derive(Debug, Drop)]
pub struct CallAbout {
    pub origin: ServerName,
    pub room: Option<RoomId>,
    pub events: Vec<EventAbout>,
}

impl CallAbout {
    /// What a call is. `AllocError` where no memory is left.
    pub fn of(alloc: Global, call: &WireCall) -> Result<CallAbout, AllocError> {
        match call {
            WireCall::Sends { origin, events, .. } => Ok(CallAbout {
                origin: origin.clone()?,
                room: None,
                events: abouts(alloc, events)?,
            }),
            WireCall::Asks { origin, query } => Ok(CallAbout {
                origin: origin.clone()?,
                room: match query.room() {
                    Some(room) => Some(room.clone()?),
                    None => None,
                },
                events: Vec::new(alloc),
            }),
            WireCall::Joins { origin, event } => Ok(CallAbout {
                origin: origin.clone()?,
                room: Some(event.pdu.room_id().clone()?),
                events: abouts(alloc, std::slice::from_ref(event))?,
            }),
        }
    }
}

fn abouts(alloc: Global, events: &[Offered]) -> Result<Vec<EventAbout>, AllocError> {
    let mut abouts = Vec::new(alloc);
    for offered in events {
        abouts.push(EventAbout::of(offered)?)?;
    }
    Ok(abouts)
}
