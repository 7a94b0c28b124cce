// An event that was judged, and the events of the state that levels come from.
ghost use Rattle.std.specs.Prelude.{◌≡◌, option_map, is_some, codes};
ghost use Rattle.mx_levels.specs.Level.{entry_at as entry_in, required_level};
ghost use Rattle.mx_pdu.specs.Event.{content_of, is_state as is_state_event, sender_of};
ghost use Rattle.mx_redact.specs.Fields.{kind};
ghost use Rattle.mx_auth.specs.Rules.{target_of};
ghost use Rattle.mx_reasons.specs.Because.{default_source_of, source_of};

use mx_levels::{Levels, entry_at};
use mx_pdu::Pdu;
use std::marker::Model;

/// An event that was judged, with the create event and the power levels event of the state that it was judged on.
#[derive(Debug, Drop)]
pub struct JudgedEvent<'a> {
    event: &'a Pdu,
    create: Option<&'a Pdu>,
    power: Option<&'a Pdu>,
}

impl<'a> Model for JudgedEvent<'a> {
    ghost use Rattle.std.specs.Prelude.{option_map};
    ghost use Rattle.mx_reasons.specs.JudgedView.{Judged, judged_code};

    ghost Value = { Judged };

    ghost coded = { judged_code };

    ghost view = { λ j. record {
      event = j.event.now;
      sources = record { create = option_map (λ e. e.now) j.create; power = option_map (λ e. e.now) j.power };
    } };
}

impl<'a> JudgedEvent<'a> {
    /// An event, and these events of the state.
    pub fn of(event: &'a Pdu, create: Option<&'a Pdu>, power: Option<&'a Pdu>) -> JudgedEvent<'a>
        ensures event { result.event ≡ event.now }
        ensures create { result.sources.create ≡ option_map (λ e. e.now) create.entry }
        ensures power { result.sources.power ≡ option_map (λ e. e.now) power.entry }
    {
        JudgedEvent {
            event,
            create,
            power,
        }
    }

    /// The event.
    pub(crate) fn event(&self) -> &Pdu
        ensures { result.now ≡ self.now.event }
    {
        self.event
    }

    /// Its type.
    pub(crate) fn kind(&self) -> &str
        ensures { result.now ≡ kind self.now.event }
    {
        self.event.kind()
    }

    /// Its sender.
    pub(crate) fn sender(&self) -> &str
        ensures { result.now ≡ sender_of self.now.event }
    {
        self.event.sender().as_str()
    }

    /// The levels of the state.
    pub(crate) fn levels(&self) -> Levels<'_>
        ensures { result ≡ self.now.sources }
    {
        Levels::of(self.create, self.power)
    }

    /// The user that a member event is about.
    pub(crate) fn target(&self) -> &str
        ensures { result.now ≡ target_of self.now.event }
    {
        match self.event.state_key() {
            Some(target) => target,
            None => "",
        }
    }

    /// Whether the event is a state event.
    pub(crate) fn is_state(&self) -> bool
        ensures { result ≡ is_state_event self.now.event }
    {
        match self.event.state_key() {
            Some(_) => true,
            None => false,
        }
    }

    /// The level that the event's type asks for.
    pub(crate) fn required(&self) -> i64
        ensures { result ≡ required_level self.now.sources.power (kind self.now.event) (is_state_event self.now.event) }
    {
        self.levels().required(self.event.kind(), self.is_state())
    }

    /// The key of the power levels that gives that level.
    pub(crate) fn source(&self) -> &'static str
        ensures { result.now ≡ source_of self.now.sources.power (kind self.now.event) (is_state_event self.now.event) }
    {
        match self.power {
            None => "no power levels",
            Some(power) if names_type(power, self.event.kind()) => "events",
            Some(_) => self.default_source(),
        }
    }

    fn default_source(&self) -> &'static str
        ensures { result.now ≡ default_source_of (is_state_event self.now.event) }
    {
        match self.is_state() {
            true => "state_default",
            false => "events_default",
        }
    }
}

// Whether the `events` of power levels has an entry for a type.
fn names_type(power: &Pdu, kind: &str) -> bool
    ensures { result ≡ is_some (entry_in (codes "events") kind.now (content_of power.now)) }
{
    match type_level(power, kind) {
        Some(_) => true,
        None => false,
    }
}

// The level there.
fn type_level(power: &Pdu, kind: &str) -> Option<i64>
    ensures { result ≡ entry_in (codes "events") kind.now (content_of power.now) }
{
    entry_at(power.content(), "events", kind)
}
