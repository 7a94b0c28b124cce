// What a server sees of a room.
ghost use Rattle.std.specs.Prelude.{◌≡◌, ◌<◌, IfOk, IsTrue, OnErr, false, length, option_map};
ghost use Rattle.std.specs.Cow.{IsBorrowed, cow_value};
ghost use Rattle.std.specs.Option.{ForSome};
ghost use Rattle.mx_pdu.specs.Event.{is_state};
ghost use Rattle.mx_receipt.specs.Receipt.{kept_at};
ghost use Rattle.mx_access.specs.Access as definition;

use crate::events::kept_event;
use crate::serving::served;
use crate::states::StateInRoom;
use crate::visibilities::{Visibility, visibility_in};
use mx_graph::EventNo;
use mx_ident::ServerName;
use mx_pdu::Pdu;
use mx_receipt::Timeline;
use std::alloc::{AllocError, Global};
use std::borrow::Cow;
use std::marker::Model;

/// A server that looks at a room. Whether it is in the room is worked out once, where the viewer is made, and not for
/// each event.
#[derive(Debug, Drop)]
pub struct Viewer<'t, 's> {
    timeline: &'t Timeline,
    server: &'s ServerName,
    in_room: bool,
}

impl<'t, 's> Model for Viewer<'t, 's> {
    ghost use Rattle.std.specs.Prelude.{◌≡◌};
    ghost use Rattle.mx_access.specs.Access as definition;
    ghost use Rattle.mx_access.specs.ViewerView.{ViewerView, viewer_code};

    ghost Value = { ViewerView };

    ghost coded = { viewer_code };

    ghost view = { λ v. record { kept = v.timeline.now.kept; server = v.server.now } };

    ghost invariant = { λ v. v.in_room ≡ definition.in_room v.timeline.now.kept v.server.now };
}

impl<'t, 's> Viewer<'t, 's> {
    /// A server, looking at a room. It takes no memory.
    ///
    /// The time is that of [`in_room`].
    pub fn of(timeline: &'t Timeline, server: &'s ServerName) -> Viewer<'t, 's>
        ensures { result ≡ record { kept = timeline.now.kept; server = server.now } }
    {
        let in_room = in_room(timeline, server);
        Viewer {
            timeline,
            server,
            in_room,
        }
    }

    /// The server. It takes no memory.
    pub fn server(&self) -> &'s ServerName
        ensures { result.now ≡ self.now.server }
    {
        self.server
    }

    /// Whether the server is in the room ([`in_room`]). It takes no memory.
    pub fn is_in_room(&self) -> bool
        ensures { result ≡ definition.in_room self.now.kept self.now.server }
    {
        self.in_room
    }

    /// Whether the server sees the event with this number ([`visible`]). It takes no memory.
    #[tactic(auto, unfolding(crate::specs::Access::visible))]
    pub fn sees(&self, number: EventNo) -> bool
        requires { number < length self.now.kept }
        ensures { result ≡ definition.visible self.now.kept self.now.server number }
    {
        self.sees_by(&StateInRoom::before(self.timeline, number))
            || (self.may_change_state(number)
                && self.sees_by(&StateInRoom::after(self.timeline, number)))
    }

    // Where an event is no state event, the state after it is the one before it.
    fn may_change_state(&self, number: EventNo) -> bool
        requires { number < length self.now.kept }
        ensures { result ≡ is_state (kept_at self.now.kept number).event }
    {
        kept_event(self.timeline, number).state_key().is_some()
    }

    /// What the server is shown of the event with this number ([`shown`]).
    #[tactic(auto, unfolding(crate::specs::Access::shown, crate::specs::Access::is_shown_redacted))]
    pub fn shown(&self, alloc: Global, number: EventNo) -> Result<Option<Cow<'t, Pdu>>, AllocError>
        requires { number < length self.now.kept }
        ensures event { IfOk result (λ shown. option_map cow_value shown
            ≡ definition.shown self.now.kept self.now.server number) }
        ensures lent { definition.is_shown_redacted self.now.kept self.now.server number ≡ false
            → IfOk result (λ shown. ForSome shown IsBorrowed) }
        ensures memory { OnErr result (IsTrue (definition.is_shown_redacted self.now.kept self.now.server number)) }
    {
        if self.timeline.verdict(number).is_rejected() {
            Ok(None)
        } else if self.sees(number) {
            let event = served(alloc, self.timeline, number)?;
            Ok(Some(event))
        } else if self.in_room {
            let redacted = kept_event(self.timeline, number).redacted(alloc)?;
            Ok(Some(Cow::Owned(redacted)))
        } else {
            Ok(None)
        }
    }

    // Whether a state of the room lets the server see an event. A state's members are looked at only where its
    // visibility asks for them.
    fn sees_by(&self, state: &StateInRoom<'_>) -> bool
        requires { state.now.0 ≡ self.now.kept }
        ensures { result ≡ definition.visible_under self.now.kept self.now.server state.now.1 }
    {
        let server = self.server.as_str();
        match visibility_in(state) {
            Visibility::WorldReadable => true,
            Visibility::Shared => self.in_room || state.has_member("join", server),
            Visibility::Invited => {
                state.has_member("join", server) || state.has_member("invite", server)
            }
            Visibility::Joined => state.has_member("join", server),
        }
    }
}

/// Whether a server is in the room: a user of the server is joined in its current state. It takes no memory.
///
/// The time is that of one look-up of the server, and of one in the current state for each user of that server who has a
/// membership in any of the room's states.
///
/// Source: the Matrix specification, Server-Server API.
#[tactic(auto, unfolding(crate::specs::Access::in_room))]
pub fn in_room(timeline: &Timeline, server: &ServerName) -> bool
    ensures { result ≡ definition.in_room timeline.now.kept server.now }
{
    StateInRoom::current(timeline).has_member("join", server.as_str())
}

/// Whether a server sees an event: by the history visibility of the state before the event, or of the state after it.
/// It takes no memory.
///
/// An absent or unknown visibility is `shared`. `world_readable` lets everybody see; `shared` a server of which a user
/// is joined now or in that state; `invited` one of which a user is joined or invited in that state; `joined` one of
/// which a user is joined in that state.
///
/// Source: the Matrix specification, Client-Server API, "Room History Visibility"; for servers it is our own.
pub fn visible(timeline: &Timeline, server: &ServerName, number: EventNo) -> bool
    requires { number < length timeline.now.kept }
    ensures { result ≡ definition.visible timeline.now.kept server.now number }
{
    Viewer::of(timeline, server).sees(number)
}

/// What a server is shown of an event: nothing of a rejected one; of one that it sees ([`visible`]) what is served
/// ([`served`](crate::served)); of another one the redacted form where the server is in the room, and nothing where it
/// is not. `AllocError` where the event is shown redacted and no memory is left.
///
/// The event is not copied where it is shown as it is kept. Source: the Matrix specification, Server-Server API,
/// "Backfilling and retrieving missing events", and Client-Server API, "Room History Visibility".
pub fn shown<'t>(
    alloc: Global,
    timeline: &'t Timeline,
    server: &ServerName,
    number: EventNo,
) -> Result<Option<Cow<'t, Pdu>>, AllocError>
    requires { number < length timeline.now.kept }
    ensures event { IfOk result (λ shown. option_map cow_value shown
        ≡ definition.shown timeline.now.kept server.now number) }
    ensures lent { definition.is_shown_redacted timeline.now.kept server.now number ≡ false
        → IfOk result (λ shown. ForSome shown IsBorrowed) }
    ensures memory { OnErr result (IsTrue (definition.is_shown_redacted timeline.now.kept server.now number)) }
{
    Viewer::of(timeline, server).shown(alloc, number)
}
