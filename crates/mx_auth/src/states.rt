// A room's state, as the rules look at it.
ghost use Rattle.std.specs.Prelude.{◌≡◌};
ghost use Rattle.std.specs.Option.{option_copied};
ghost use Rattle.mx_auth.specs.StateView.{StateView, create_of, power_of, membership_in as membership, is_joined as is_joined_in, is_invited_or_joined as is_invited_or_joined_in, is_knocking as is_knocking_in, is_banned as is_banned_in, join_rule_in as join_rule};

use crate::contents::content_text;
use crate::events::membership_of;
use mx_ident::EventId;
use mx_levels::Levels;
use mx_pdu::Pdu;
use mx_redact::is_text;

/// A room's state: the event at each type and state key.
///
/// Source: the Matrix specification, Room Version 6 and Room Version 7, "Authorization rules", which judge an event on a state.
pub trait RoomState {
    ghost state: { Self → StateView };

    /// The id of the create event, where there is one.
    fn create_id(&self) -> Option<&EventId>
        ensures { option_copied result ≡ (state self.now).create_id };

    /// The event at a type and a state key.
    fn entry(&self, kind: &str, key: &str) -> Option<&Pdu>
        ensures { option_copied result ≡ (state self.now).entry kind.now key.now };
}

/// The create event.
pub(crate) fn create_event<S: RoomState>(state: &S) -> Option<&Pdu>
    ensures { option_copied result ≡ create_of (S.state state.now) }
{
    state.entry("m.room.create", "")
}

/// The power levels event.
pub(crate) fn power_event<S: RoomState>(state: &S) -> Option<&Pdu>
    ensures { option_copied result ≡ power_of (S.state state.now) }
{
    state.entry("m.room.power_levels", "")
}

/// The levels in the state.
pub(crate) fn levels_in<S: RoomState>(state: &S) -> Levels<'_>
    ensures create { result.create ≡ create_of (S.state state.now) }
    ensures power { result.power ≡ power_of (S.state state.now) }
{
    Levels::of(create_event(state), power_event(state))
}

// The user's membership.
fn membership_in<'s, S: RoomState>(state: &'s S, user: &str) -> Option<&'s str>
    ensures { option_copied result ≡ membership (S.state state.now) user.now }
{
    match state.entry("m.room.member", user) {
        Some(event) => membership_of(event),
        None => None,
    }
}

#[tactic(auto, unfolding(crate::specs::StateView::is_joined))]
pub(crate) fn is_joined<S: RoomState>(state: &S, user: &str) -> bool
    ensures { result ≡ is_joined_in (S.state state.now) user.now }
{
    is_text(membership_in(state, user), "join")
}

#[tactic(auto, unfolding(crate::specs::StateView::is_invited_or_joined))]
pub(crate) fn is_invited_or_joined<S: RoomState>(state: &S, user: &str) -> bool
    ensures { result ≡ is_invited_or_joined_in (S.state state.now) user.now }
{
    let membership = membership_in(state, user);
    is_text(membership, "invite") || is_text(membership, "join")
}

#[tactic(auto, unfolding(crate::specs::StateView::is_knocking))]
pub(crate) fn is_knocking<S: RoomState>(state: &S, user: &str) -> bool
    ensures { result ≡ is_knocking_in (S.state state.now) user.now }
{
    is_text(membership_in(state, user), "knock")
}

#[tactic(auto, unfolding(crate::specs::StateView::is_banned))]
pub(crate) fn is_banned<S: RoomState>(state: &S, user: &str) -> bool
    ensures { result ≡ is_banned_in (S.state state.now) user.now }
{
    is_text(membership_in(state, user), "ban")
}

/// The join rule, `invite` where the state has no readable one.
#[tactic(auto, unfolding(crate::specs::StateView::join_rule_in))]
pub(crate) fn join_rule_in<S: RoomState>(state: &S) -> &str
    ensures { result.now ≡ join_rule (S.state state.now) }
{
    match state.entry("m.room.join_rules", "") {
        Some(event) => content_text(event, "join_rule").unwrap_or("invite"),
        None => "invite",
    }
}
