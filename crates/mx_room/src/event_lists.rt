// Lists of events, of ids, and of versions, that queries and their answers hold.
ghost use Rattle.std.specs.Prelude.{◌≡◌, map, string_bytes};

use mx_ident::EventId;
use mx_pdu::Pdu;
use std::marker::Model;

/// Some events, in an order.
#[derive(Debug, Drop)]
pub struct EventList {
    events: Vec<Pdu>,
}

impl Model for EventList {
    ghost use Rattle.std.specs.Prelude.{List};
    ghost use Rattle.std.specs.Coded.{coded_list};
    ghost use Rattle.mx_pdu.specs.DataCode.{data_code};
    ghost use Rattle.mx_redact.specs.Fields.{Event};

    ghost Value = { List Event };

    ghost coded = { coded_list data_code };

    ghost view = { λ list. list.events.items };
}

impl EventList {
    /// The list of these events.
    pub fn new(events: Vec<Pdu>) -> EventList
        ensures { result ≡ events.items }
    {
        EventList { events }
    }

    /// Its events.
    pub fn as_slice(&self) -> &[Pdu]
        ensures { result.now ≡ self.now }
    {
        &self.events
    }
}

/// The ids of some events, in an order.
#[derive(Debug, Drop)]
pub struct EventIdList {
    ids: Vec<EventId>,
}

impl Model for EventIdList {
    ghost use Rattle.std.specs.Prelude.{List, ℕ};

    ghost Value = { List (List ℕ) };

    ghost view = { λ list. list.ids.items };
}

impl EventIdList {
    /// The list of these ids.
    pub fn new(ids: Vec<EventId>) -> EventIdList
        ensures { result ≡ ids.items }
    {
        EventIdList { ids }
    }

    /// Its ids.
    pub fn as_slice(&self) -> &[EventId]
        ensures { result.now ≡ self.now }
    {
        &self.ids
    }
}

/// Some versions of rooms, each of them any text.
///
/// Source: the Matrix specification, "Room Versions".
#[derive(Debug, Drop)]
pub struct VersionList {
    versions: Vec<String>,
}

impl Model for VersionList {
    ghost use Rattle.std.specs.Prelude.{List, ℕ, map, string_bytes};

    ghost Value = { List (List ℕ) };

    ghost view = { λ list. map string_bytes list.versions.items };
}

impl VersionList {
    /// The list of these versions.
    pub fn new(versions: Vec<String>) -> VersionList
        ensures { result ≡ map string_bytes versions.items }
    {
        VersionList { versions }
    }

    /// Its versions.
    pub fn as_slice(&self) -> &[String]
        ensures { map string_bytes result.now ≡ self.now }
    {
        &self.versions
    }
}
