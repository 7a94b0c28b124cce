// A state of a room, with the events that it is of.
ghost use Rattle.std.specs.Prelude.{◌≡◌, ◌<◌, All, length};
ghost use Rattle.mx_receipt.specs.Receipt as receipt;

use crate::member_tests::MemberTest;
use mx_auth::RoomState;
use mx_graph::EventNo;
use mx_ident::EventId;
use mx_levels::Levels;
use mx_pdu::Pdu;
use mx_receipt::{Timeline, timeline_is_sound};
use mx_states::StateRef;
use std::marker::Model;

/// A state of a room, with the timeline that has its events. Nothing here takes memory.
///
/// The rules can judge an event on it, since it is a [`RoomState`].
#[derive(Debug, Drop)]
pub struct StateInRoom<'t> {
    timeline: &'t Timeline,
    state: StateRef<'t>,
}

impl<'t> Model for StateInRoom<'t> {
    ghost use Rattle.std.specs.Prelude.{List, ◌<◌, All, length};
    ghost use Rattle.mx_graph.specs.StateMap.{State};
    ghost use Rattle.mx_receipt.specs.Receipt.{Kept};
    ghost use Rattle.mx_access.specs.StateCode.{state_in_room_code};

    ghost Value = { List Kept × State };

    ghost coded = { state_in_room_code };

    ghost view = { λ s. (s.timeline.now.kept, s.state) };

    ghost invariant = { λ s. All (λ e. e.1 < length s.timeline.now.kept) s.state };
}

impl<'t> StateInRoom<'t> {
    ghost use Rattle.std.specs.Prelude.{IfSome};
    ghost use Rattle.std.specs.Option.{option_copied};
    ghost use Rattle.mx_auth.specs.StateView.{create_of, power_of};
    ghost use Rattle.mx_graph.specs.StateMap.{entry as entry_at};
    ghost use Rattle.mx_orders.specs.StateMap.{view};
    ghost use Rattle.mx_receipt.specs.Receipt.{rows_of};
    ghost use Rattle.mx_access.specs.Access.{has_member as has_member_in};

    /// The room's current state.
    pub fn current(timeline: &'t Timeline) -> StateInRoom<'t>
        ensures { result ≡ (timeline.now.kept, receipt.current_state timeline.now.kept) }
    {
        timeline_is_sound(timeline);
        let state = timeline.current();
        StateInRoom { timeline, state }
    }

    /// The state before an event.
    pub(crate) fn before(timeline: &'t Timeline, number: EventNo) -> StateInRoom<'t>
        requires { number < length timeline.now.kept }
        ensures { result ≡ (timeline.now.kept, receipt.state_before timeline.now.kept number) }
    {
        timeline_is_sound(timeline);
        let state = timeline.state_before(number);
        StateInRoom { timeline, state }
    }

    /// The state after an event.
    pub(crate) fn after(timeline: &'t Timeline, number: EventNo) -> StateInRoom<'t>
        requires { number < length timeline.now.kept }
        ensures { result ≡ (timeline.now.kept, receipt.state_after timeline.now.kept number) }
    {
        timeline_is_sound(timeline);
        let state = timeline.state_after(number);
        StateInRoom { timeline, state }
    }

    /// The event at a type and a state key.
    pub(crate) fn event(&self, kind: &str, key: &str) -> Option<&'t Pdu>
        ensures { option_copied result ≡ (view (rows_of self.now.0) self.now.1).entry kind.now key.now }
    {
        let number = self.number_at(kind, key)?;
        Some(&self.timeline.row(number).event)
    }

    /// The number of the event at a type and a state key.
    pub fn number_at(&self, kind: &str, key: &str) -> Option<EventNo>
        ensures number { result ≡ entry_at self.now.1 (kind.now, key.now) }
        ensures known { IfSome result (λ n. n < length self.now.0) }
    {
        self.state.get(kind, key)
    }

    /// The levels in it.
    pub(crate) fn levels(&self) -> Levels<'t>
        ensures create { result.create ≡ create_of (view (rows_of self.now.0) self.now.1) }
        ensures power { result.power ≡ power_of (view (rows_of self.now.0) self.now.1) }
    {
        Levels::of(
            self.event("m.room.create", ""),
            self.event("m.room.power_levels", ""),
        )
    }

    /// Whether a user of the server has this membership. The time is that of one look-up of the server, and of one in
    /// the state for each user of that server who has a membership in any of the room's states.
    pub(crate) fn has_member(&self, membership: &str, server: &str) -> bool
        ensures { result ≡ has_member_in (rows_of self.now.0) self.now.1 membership.now server.now }
    {
        let test = MemberTest {
            timeline: self.timeline,
            membership,
        };
        self.state.has_member_where(server, &test)
    }
}

impl<'t> RoomState for StateInRoom<'t> {
    ghost use Rattle.mx_orders.specs.StateMap.{view};
    ghost use Rattle.mx_receipt.specs.Receipt.{rows_of};

    ghost state = { λ s. view (rows_of s.0) s.1 };

    fn create_id(&self) -> Option<&EventId> {
        match self.number_at("m.room.create", "") {
            Some(number) => Some(&self.timeline.row(number).id),
            None => None,
        }
    }

    fn entry(&self, kind: &str, key: &str) -> Option<&Pdu> {
        self.event(kind, key)
    }
}
