// Redactions by the events that they name.
ghost use Rattle.std.specs.Prelude.{◌≡◌, List, None, OnErr, OnOk, [], codes, if◌then◌else◌, option_map, ℕ};
ghost use Rattle.mx_pdu.specs.Event.{has_kind, redacts_of};
ghost use Rattle.mx_graph.specs.Redactions.{naming, with_event, without_event};

use crate::numbers::EventNo;
use mx_ident::EventId;
use mx_pdu::Pdu;
use std::alloc::{AllocError, Global};
use std::collections::BTreeMap;

/// The redactions among the rows of a graph, by the id that each names. The event with that id need not be a row.
///
/// Source: the Matrix specification, Room Version 6, "Redactions".
#[derive(Debug, Drop)]
pub(crate) struct RedactionIndex {
    // By the text of the id, so that a look-up copies nothing. A list may be empty.
    lists: BTreeMap<String, Vec<EventNo>>,
}

impl RedactionIndex {
    // An index with no redactions.
    pub fn new(alloc: Global) -> RedactionIndex
        ensures { (id : List ℕ) → naming result id ≡ [] }
    {
        RedactionIndex {
            lists: BTreeMap::new(alloc),
        }
    }

    // The redactions that name an id.
    pub fn get(&self, id: &EventId) -> &[EventNo]
        ensures { result.now ≡ naming self.now id.now }
    {
        match self.lists.get(id.as_str()) {
            Some(numbers) => numbers,
            None => &[],
        }
    }

    // Adds an event with its number, where it is a redaction. For another event it takes no memory.
    pub fn add(&mut self, alloc: Global, event: &Pdu, number: EventNo) -> Result<(), AllocError>
        ensures ok { OnOk result ((id : List ℕ)
            → naming self.new id ≡ with_event event.now number id (naming self.old id)) }
        ensures err { OnErr result ((id : List ℕ) → naming self.new id ≡ naming self.old id) }
    {
        if let Some(target) = redaction_target(event) {
            let key = String::from_str(alloc, target)?;
            self.lists.entry(key)?.or_default().push(number)?;
        }
        Ok(())
    }

    // Takes an event out that was added last. It takes no memory.
    pub fn remove_last(&mut self, event: &Pdu)
        ensures { (id : List ℕ)
            → naming self.new id ≡ without_event event.now id (naming self.old id) }
    {
        if let Some(target) = redaction_target(event) {
            if let Some(numbers) = self.lists.get_mut(target) {
                numbers.pop();
            }
        }
    }
}

// The id that an event names where it is a redaction.
fn redaction_target(event: &Pdu) -> Option<&str>
    ensures { option_map (λ id. id.now) result
        ≡ (if has_kind (codes "m.room.redaction") event.now then redacts_of event.now else None) }
{
    if event.kind() == "m.room.redaction" {
        event.redacts()
    } else {
        None
    }
}
