// The fields of an event, found in one walk over its members. Nothing here takes memory.
ghost use Rattle.std.specs.Prelude.{◌≡◌, ◌<◌, option_map, slice_index_or, None};
ghost use Rattle.serde_json.specs.Data.{object};
ghost use Rattle.serde_json.specs.View.{view, members_view};
ghost use Rattle.mx_pdu.specs.EventFields.{AreFound, AreFound-prop, field_at, index_of};

use mx_redact::EventKey;
use serde_json::{Map, Value};

// As many as keys of an event are told apart.
const KEYS: usize = 18;

// The members of an event, and the values at those keys that have a name.
#[derive(Drop)]
pub struct EventFields<'a> {
    pub members: &'a Map<String, Value>,
    values: [Option<&'a Value>; KEYS],
    ghost found: { AreFound (λ key. option_map (λ value. view value.now) (slice_index_or values (index_of key) None))
        (object (members_view members.now.entries)) } by { AreFound-prop (λ key. option_map (λ value. view value.now) (slice_index_or values (index_of key) None))
            (object (members_view members.now.entries)) },
}

impl<'a> EventFields<'a> {
    // One walk over the members.
    pub fn of(members: &'a Map<String, Value>) -> EventFields<'a>
        ensures { result.members.now.entries ≡ members.now.entries }
    {
        let mut values = [None; KEYS];
        for (key, value) in members.iter() {
            match EventKey::of(key) {
                EventKey::Other => {}
                named => values[index(named)] = Some(value),
            }
        }
        EventFields { members, values }
    }

    // The value at a key.
    pub fn at(&self, key: EventKey) -> Option<&'a Value>
        ensures { option_map (λ value. view value.now) result ≡ field_at key (object (members_view self.now.members.now.entries)) }
    {
        let values = &self.values[..];
        values[index(key)]
    }
}

// Where the value at a key stands among the others.
fn index(key: EventKey) -> usize
    ensures place { result ≡ index_of key }
    ensures low { result < 18 }
{
    match key {
        EventKey::AuthEvents => 0,
        EventKey::Content => 1,
        EventKey::Depth => 2,
        EventKey::EventId => 3,
        EventKey::Hashes => 4,
        EventKey::Membership => 5,
        EventKey::Origin => 6,
        EventKey::OriginServerTs => 7,
        EventKey::PrevEvents => 8,
        EventKey::PrevState => 9,
        EventKey::Redacts => 10,
        EventKey::RoomId => 11,
        EventKey::Sender => 12,
        EventKey::Signatures => 13,
        EventKey::StateKey => 14,
        EventKey::Kind => 15,
        EventKey::Unsigned => 16,
        EventKey::Other => 17,
    }
}
