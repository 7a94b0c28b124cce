// Texts of parts of an event, put together from pieces of the event's canonical text.
ghost use Rattle.std.specs.Prelude.{◌≡◌, ◌≤◌, ◌-◌, ℕ, List, ◌++◌, IfOk, IsTrue, false, true, All, if◌then◌else◌, option_map};
ghost use Rattle.serde_json.specs.Data.{Data, Members, no_members, object};
ghost use Rattle.serde_json.specs.View.{members_view};
ghost use Rattle.mx_canon.specs.Canonical.{canonical_text, member_text};
ghost use Rattle.mx_canon.specs.Pieces.{comma_if};
ghost use Rattle.mx_canon.specs.Sinks.{HoldsText};
ghost use Rattle.mx_redact.specs.Places.{ArePlaces};
ghost use Rattle.mx_redact.specs.Selected.{selected, selected_value};
ghost use Rattle.mx_redact.specs.PartTexts.{AllKnown, HoldsAllBut, IsBehindComma, IsKnown, IsWithin, StandsAt, inner_at, is_key_in, selection_of};

use crate::event_keys::EventKey;
use crate::kinds::KeptContent;
use crate::places::MemberPlace;
use crate::selections::{Selection, write_selected};
use mx_canon::{TextBuffer, TextSink};
use serde_json::{Map, Value};
use std::alloc::{AllocError, Global};

/// A part of an event that is put together from pieces.
#[derive(Clone, Copy, Debug, PartialEq, Eq)]
pub(crate) enum Part {
    // What the content hash is made of.
    Hashed,
    // What is signed.
    Signed(KeptContent),
}

impl Part {
    // Whether a key of the event is in the part.
    fn has(self, key: EventKey) -> bool
        ensures { result ≡ is_key_in self key }
    {
        match self {
            Part::Hashed => !matches!(
                key,
                EventKey::Unsigned | EventKey::Signatures | EventKey::Hashes
            ),
            Part::Signed(_) => !matches!(
                key,
                EventKey::Redacts | EventKey::Signatures | EventKey::Unsigned | EventKey::Other
            ),
        }
    }

    // What redaction keeps of the value at a key, where it keeps a part of it alone.
    fn inner(self, key: EventKey) -> Option<KeptContent>
        ensures { result ≡ inner_at self key }
    {
        match (self, key) {
            (Part::Signed(kept), EventKey::Content) => Some(kept),
            _ => None,
        }
    }
}

// The text of a part, which takes the event's members one after another.
#[derive(Drop)]
struct PartText {
    part: Part,
    buffer: TextBuffer,
    // Whether a member stands in the text.
    later: bool,
}

impl PartText {
    // Before the first member, with room for so many bytes.
    fn new(alloc: Global, part: Part, capacity: usize) -> Result<PartText, AllocError>
        ensures part { IfOk result (λ text. text.part ≡ part) }
        ensures first { IfOk result (λ text. text.later ≡ false) }
        ensures holds { IfOk result (λ text. (all : Members) → HoldsAllBut text all all) }
    {
        let mut buffer = TextBuffer::with_capacity(alloc, capacity)?;
        buffer.put(b"{");
        Ok(PartText {
            part,
            buffer,
            later: false,
        })
    }

    // Takes the member that stands at a place in the event's text.
    fn put(&mut self, text: &[u8], place: MemberPlace, known: Option<&Map<String, Value>>)
        requires { IsWithin text.now place }
        ensures part { self.new.part ≡ self.old.part }
        ensures later { self.new.later ≡ true }
        ensures text { (k : List ℕ) (d : Data) (after : List ℕ) (taken : List ℕ) → StandsAt text.now place k d after
            → (IsTrue self.old.later → IsBehindComma text.now place)
            → IsKnown self.old.part (option_map (λ members. members_view members.now.entries) known.entry) k d
            → HoldsText self.old.buffer taken → HoldsText self.new.buffer ((taken ++ comma_if self.old.later)
            ++ member_text (k, canonical_text (selected_value (selection_of self.old.part) k d))) }
    {
        let from = first_byte(place, self.later);
        match (self.part.inner(place.key), known) {
            (Some(kept), Some(members)) => {
                self.buffer.put(&text[from..place.value]);
                write_selected(&mut self.buffer, Selection::Content(kept), members);
            }
            _ => self.buffer.put(&text[from..place.end]),
        }
        self.later = true;
    }

    // Behind the last member.
    fn finish(mut self) -> Result<Vec<u8>, AllocError>
        ensures { IfOk result (λ bytes. (all : Members) → HoldsAllBut self no_members all
            → bytes.items ≡ canonical_text (object (selected (selection_of self.part) all))) }
    {
        self.buffer.put(b"}");
        let bytes = self.buffer.into_bytes()?;
        Ok(bytes)
    }
}

// Where a member's piece begins, with the comma before it where one is wanted.
fn first_byte(place: MemberPlace, comma: bool) -> usize
    requires { 1 ≤ place.start }
    ensures { result ≡ (if comma then place.start - 1 else place.start) }
{
    if comma { place.start - 1 } else { place.start }
}

/// The text of a part of an event, by the places of its members in its canonical text, and the members known of its
/// content.
pub(crate) fn part_by_places(
    alloc: Global,
    part: Part,
    text: &[u8],
    places: &[MemberPlace],
    known: Option<&Map<String, Value>>,
) -> Result<Vec<u8>, AllocError>
    requires { All (IsWithin text.now) places.now }
    ensures { IfOk result (λ bytes. (members : Members) → ArePlaces text.now places.now members
        → AllKnown part (option_map (λ members. members_view members.now.entries) known.entry) members
        → bytes.items ≡ canonical_text (object (selected (selection_of part) members))) }
{
    let mut out = PartText::new(alloc, part, text.len())?;
    for place in places {
        if part.has(place.key) {
            out.put(text, *place, known);
        }
    }
    let bytes = out.finish()?;
    Ok(bytes)
}
