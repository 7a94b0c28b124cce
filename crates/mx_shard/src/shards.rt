// The rooms of a shard.
ghost use Rattle.std.specs.Prelude.{◌≡◌, ◌≤◌, ◌↔◌, ◌⊎◌, [], Option, Some, None, List, true, false, IfOk, IfSome, OnOk, OnErr, IsErrOf, IsTrue, All};
ghost use Rattle.mx_keeper.specs.Keeping.{Rose};
ghost use Rattle.mx_keeper.specs.Places.{is_at};
ghost use Rattle.mx_keeper.specs.declared.rows.ShardRow.{ShardRow};
ghost use Rattle.mx_pdu.specs.Event.{room_of};
ghost use Rattle.mx_shard.specs.LoneRoom.{to_host, to_offer, to_join, to_ask, sent_call, call_room, answer};
ghost use Rattle.mx_shard.specs.Shown.{HasShown, IsAnswer};
ghost use Rattle.mx_shard.specs.Told.{tells_hosted, tells_kept};
ghost use Rattle.mx_shard.specs.Journal.{Entry, record_of, journal_after, stored, reopened, AreWorkedOut, CanReopen, IsLegal, has_id};
ghost use Rattle.mx_shard.specs.Rooms.{AreRoomsOf};

use crate::answers::Answer;
use crate::asking::answer_among;
use crate::holders::Holder;
use crate::holding::is_held_among;
use crate::hosting::{Hosting, add_room, hosting_in, remove_room, reserve_room, taken_room};
use crate::journal_places::JournalPlace;
use crate::offering::{Offering, discard_in, install_in, offering_in};
use crate::reopening::reopened_in;
use crate::sendings::Sending;
use crate::storing::{store, store_with_place};
use mx_ident::{EventId, RoomId, ServerName};
use mx_keeper::{CallError, Caller, Keeper, KeeperFault, Place, ShardRow};
use mx_pdu::Offered;
use mx_room::{Moment, Query, Room};
use std::alloc::Global;
use std::collections::BTreeMap;
use std::marker::Model;

/// The rooms of one place: a journal of the events that they kept, whose entries are rows of a keeper.
///
/// Each call names the number of its caller. Unless the shard was refused for storage, and while its keeper is honest,
/// the keeper is open and its rows are the entries of the journal.
#[derive(Drop)]
pub struct Shard<K: Keeper<Row = ShardRow>> {
    alloc: Global,
    keeper: K,
    place: Place,
    is_refused: bool,
    rooms: Vec<Room>,
    // Where among the rooms each id stands.
    numbers: BTreeMap<RoomId, usize>,
    // Which of the rooms holds the event with each id.
    holders: BTreeMap<EventId, Holder>,
    journal: Vec<JournalPlace>,
}

impl<K: Keeper<Row = ShardRow>> Model for Shard<K> {
    ghost use Rattle.std.specs.Prelude.{◌≡◌, Some, false};
    ghost use Rattle.mx_shard.specs.View.{ShardView, shard_code};
    ghost use Rattle.mx_shard.specs.Journal.{stored};
    ghost use Rattle.mx_shard.specs.Holders.{IsHolding};
    ghost use Rattle.mx_shard.specs.Inside.{journal_of, IsSound};

    ghost Value = { ShardView K };

    ghost coded = { shard_code K.code };

    ghost view = { λ shard. record { keeper = shard.keeper; journal = journal_of shard.rooms.items shard.journal.items; place = shard.place; is_refused = shard.is_refused } };

    ghost invariant = { λ shard.
        IsSound shard.place shard.rooms.items shard.numbers shard.journal.items
        × (shard.is_refused ≡ false → K.is_honest shard.keeper
        → K.is_open shard.keeper × (K.rows shard.keeper ≡ Some (stored (journal_of shard.rooms.items shard.journal.items))))
        × IsHolding shard.holders shard.rooms.items };
}

impl<K: Keeper<Row = ShardRow>> Shard<K> {
    /// A shard over a keeper, at this place, with the rooms that its rows make.
    ///
    /// Each event is judged again by those before it of its room, and the ids are worked out again; neither signatures,
    /// content hashes nor access control lists are asked again. `Memory` where no memory is left. `Storage` where the
    /// keeper failed, where what it has does not read as rows, or where no shard at this place has such rows. A refused
    /// call drops the keeper.
    pub fn reopen(alloc: Global, keeper: K, place: Place) -> Result<Shard<K>, CallError>
        // Its entries are those of its rows.
        ensures journal { IfOk result (λ shard. shard.journal ≡ reopened (stored shard.journal)) }
        ensures place { IfOk result (λ shard. shard.place ≡ place) }
        ensures taken { IfOk result (λ shard. shard.is_refused ≡ false) }
        ensures honest { IfOk result (λ shard. K.is_honest shard.keeper → K.is_honest keeper × (K.rows keeper ≡ Some (stored shard.journal))) }
        ensures crash { IfOk result (λ shard. K.is_honest shard.keeper → (left : Option (List ShardRow)) → K.may_leave shard.keeper left → K.may_leave keeper left) }

        // It has the journal whose rows the keeper had, where its ids are those that are worked out of its events.
        ensures again { IfOk result (λ shard. K.is_honest shard.keeper → (journal : List Entry) → K.rows keeper ≡ Some (stored journal) → AreWorkedOut journal → shard.journal ≡ journal) }

        // A keeper that is ready stays honest, and only such rows are refused as no shard at this place has.
        ensures ready { IfOk result (λ shard. K.is_ready keeper → K.is_honest keeper → K.is_honest shard.keeper) }
        ensures unfit { result ≡ Err CallError.Storage → K.is_ready keeper → K.is_honest keeper → (rows : List ShardRow) → K.rows keeper ≡ Some rows → ¬ (CanReopen place rows) }
    {
        let mut keeper = keeper;
        match keeper.rows() {
            Ok(rows) => {
                let made = reopened_in(alloc, &place, rows)?;
                Ok(Shard {
                    alloc,
                    keeper,
                    place,
                    is_refused: false,
                    rooms: made.rooms,
                    numbers: made.numbers,
                    holders: made.holders,
                    journal: made.journal,
                })
            }
            Err(KeeperFault::Memory) => Err(CallError::Memory),
            Err(KeeperFault::Store) => Err(CallError::Storage),
            Err(KeeperFault::Table) => Err(CallError::Storage),
        }
    }

    /// Whether it has no entry.
    pub fn is_empty(&self) -> bool
        ensures { IsTrue result ↔ (self.now.journal ≡ []) }
    {
        self.journal.is_empty()
    }

    /// Its place, and what always holds of its journal and its rows.
    pub fn place(&self) -> Place
        ensures place { result ≡ self.now.place }
        // Each room is of this place.
        ensures here { All (λ entry. IsTrue (is_at self.now.place entry.room)) self.now.journal }
        // Of each room only a create event that makes one is the first, and each later one is new and follows events of
        // its room; there are at most 50,000.
        ensures legal { IsLegal self.now.journal }
        ensures rows { self.now.is_refused ≡ false → K.is_honest self.now.keeper
            → K.is_open self.now.keeper × (K.rows self.now.keeper ≡ Some (stored self.now.journal)) }
    {
        self.place
    }

    /// Hosts the room of the event, where it is not hosted and the event makes one.
    ///
    /// `Memory` where the room is hosted, by this event or before, and no memory is left for that or for the answer.
    /// `Storage` where the keeper's count of failures rose in this call, or an earlier call was refused so; from then on
    /// the shard answers `Storage`. At an error the journal stays.
    pub fn host(&mut self, caller: Caller, offered: &Offered) -> Result<Answer, CallError>
        requires { IsTrue (is_at self.old.place (room_of offered.now.pdu)) }
        ensures reply { IfOk result (λ reply. reply ≡ answer (record_of self.old.journal (room_of offered.now.pdu)) (to_host offered.now)) }
        ensures journal { OnOk result (self.new.journal ≡ journal_after self.old.journal caller (room_of offered.now.pdu) (to_host offered.now)) }
        ensures err { OnErr result (self.new.journal ≡ self.old.journal) }
        ensures place { self.new.place ≡ self.old.place }

        ensures memory { result ≡ Err CallError.Memory → IsTrue (tells_hosted (answer (record_of self.old.journal (room_of offered.now.pdu)) (to_host offered.now))) }
        ensures storage { result ≡ Err CallError.Storage → (self.old.is_refused ≡ true) ⊎ Rose (K.failed self.old.keeper) (K.failed self.new.keeper) }
        ensures refused { IsErrOf result CallError.Storage ↔ (self.new.is_refused ≡ true) }
        ensures stays_refused { self.old.is_refused ≡ true → result ≡ Err CallError.Storage }
        ensures counted { K.failed self.old.keeper ≤ K.failed self.new.keeper }

        // After `Ok` a crash leaves the rows of the journal. At each exit it leaves what it might have left before the
        // call, or the rows with the one that this call adds.
        ensures honest { K.is_honest self.new.keeper → K.is_honest self.old.keeper }
        ensures durable { K.is_honest self.new.keeper → OnOk result ((left : Option (List ShardRow)) → K.may_leave self.new.keeper left → left ≡ Some (stored self.new.journal)) }
        ensures crash { K.is_honest self.new.keeper → (left : Option (List ShardRow)) → K.may_leave self.new.keeper left
            → K.may_leave self.old.keeper left ⊎ (left ≡ Some (stored (journal_after self.old.journal caller (room_of offered.now.pdu) (to_host offered.now)))) }
    {
        if self.is_refused {
            return Err(CallError::Storage);
        }
        match hosting_in(self.alloc, &self.rooms, &self.numbers, caller, offered)? {
            Hosting::Answered(answer) => Ok(answer),
            Hosting::Made(new) => {
                let new = reserve_room(
                    &mut self.rooms,
                    &mut self.numbers,
                    &mut self.holders,
                    &mut self.journal,
                    new,
                )?;
                match store(&mut self.keeper, &mut self.is_refused, &new.row) {
                    Ok(()) => Ok(add_room(&mut self.rooms, &mut self.journal, caller, new)),
                    Err(error) => {
                        remove_room(&mut self.numbers, &mut self.holders, new);
                        Err(error)
                    }
                }
            }
        }
    }

    /// Offers an event of a server to its room, which keeps it where it can.
    ///
    /// `Memory` where the room keeps the event and no memory is left for it. `Storage` as of [`host`](Shard::host). At an
    /// error the journal stays.
    ///
    /// Source: the Matrix specification, Server-Server API, "Checks performed on receipt of a PDU".
    pub fn offer(
        &mut self,
        caller: Caller,
        origin: &ServerName,
        offered: &Offered,
    ) -> Result<Answer, CallError>
        requires { IsTrue (is_at self.old.place (room_of offered.now.pdu)) }
        ensures reply { IfOk result (λ reply. reply ≡ answer (record_of self.old.journal (room_of offered.now.pdu)) (to_offer origin.now offered.now)) }
        ensures journal { OnOk result (self.new.journal ≡ journal_after self.old.journal caller (room_of offered.now.pdu) (to_offer origin.now offered.now)) }
        ensures err { OnErr result (self.new.journal ≡ self.old.journal) }
        ensures place { self.new.place ≡ self.old.place }

        ensures memory { result ≡ Err CallError.Memory → IsTrue (tells_kept (answer (record_of self.old.journal (room_of offered.now.pdu)) (to_offer origin.now offered.now))) }
        ensures storage { result ≡ Err CallError.Storage → (self.old.is_refused ≡ true) ⊎ Rose (K.failed self.old.keeper) (K.failed self.new.keeper) }
        ensures refused { IsErrOf result CallError.Storage ↔ (self.new.is_refused ≡ true) }
        ensures stays_refused { self.old.is_refused ≡ true → result ≡ Err CallError.Storage }
        ensures counted { K.failed self.old.keeper ≤ K.failed self.new.keeper }

        // As of `host`.
        ensures honest { K.is_honest self.new.keeper → K.is_honest self.old.keeper }
        ensures durable { K.is_honest self.new.keeper → OnOk result ((left : Option (List ShardRow)) → K.may_leave self.new.keeper left → left ≡ Some (stored self.new.journal)) }
        ensures crash { K.is_honest self.new.keeper → (left : Option (List ShardRow)) → K.may_leave self.new.keeper left
            → K.may_leave self.old.keeper left ⊎ (left ≡ Some (stored (journal_after self.old.journal caller (room_of offered.now.pdu) (to_offer origin.now offered.now)))) }
    {
        self.send(caller, Sending::Offer, origin, offered)
    }

    /// Sends the join of a user of a server to its room, which keeps it where it can, and answers what that server is to
    /// have of the room.
    ///
    /// `Memory` where the room keeps the join or answers it and no memory is left for that. `Storage` as of
    /// [`host`](Shard::host). At an error the journal stays.
    ///
    /// Source: the Matrix specification, Server-Server API, "Joining Rooms".
    pub fn join(
        &mut self,
        caller: Caller,
        origin: &ServerName,
        offered: &Offered,
    ) -> Result<Answer, CallError>
        requires { IsTrue (is_at self.old.place (room_of offered.now.pdu)) }
        ensures reply { IfOk result (λ reply. reply ≡ answer (record_of self.old.journal (room_of offered.now.pdu)) (to_join origin.now offered.now)) }
        ensures journal { OnOk result (self.new.journal ≡ journal_after self.old.journal caller (room_of offered.now.pdu) (to_join origin.now offered.now)) }
        ensures err { OnErr result (self.new.journal ≡ self.old.journal) }
        ensures place { self.new.place ≡ self.old.place }

        ensures memory { result ≡ Err CallError.Memory → IsTrue (tells_kept (answer (record_of self.old.journal (room_of offered.now.pdu)) (to_join origin.now offered.now))) }
        ensures storage { result ≡ Err CallError.Storage → (self.old.is_refused ≡ true) ⊎ Rose (K.failed self.old.keeper) (K.failed self.new.keeper) }
        ensures refused { IsErrOf result CallError.Storage ↔ (self.new.is_refused ≡ true) }
        ensures stays_refused { self.old.is_refused ≡ true → result ≡ Err CallError.Storage }
        ensures counted { K.failed self.old.keeper ≤ K.failed self.new.keeper }

        // As of `host`.
        ensures honest { K.is_honest self.new.keeper → K.is_honest self.old.keeper }
        ensures durable { K.is_honest self.new.keeper → OnOk result ((left : Option (List ShardRow)) → K.may_leave self.new.keeper left → left ≡ Some (stored self.new.journal)) }
        ensures crash { K.is_honest self.new.keeper → (left : Option (List ShardRow)) → K.may_leave self.new.keeper left
            → K.may_leave self.old.keeper left ⊎ (left ≡ Some (stored (journal_after self.old.journal caller (room_of offered.now.pdu) (to_join origin.now offered.now)))) }
    {
        self.send(caller, Sending::Join, origin, offered)
    }

    /// Sends an event of a server to its room, as of [`offer`](Shard::offer) or [`join`](Shard::join).
    ///
    /// Source: the Matrix specification, Server-Server API, "Checks performed on receipt of a PDU" and "Joining Rooms".
    pub fn send(
        &mut self,
        caller: Caller,
        sending: Sending,
        origin: &ServerName,
        offered: &Offered,
    ) -> Result<Answer, CallError>
        requires { IsTrue (is_at self.old.place (room_of offered.now.pdu)) }
        ensures reply { IfOk result (λ reply. reply ≡ answer (record_of self.old.journal (room_of offered.now.pdu)) (sent_call sending origin.now offered.now)) }
        ensures journal { OnOk result (self.new.journal ≡ journal_after self.old.journal caller (room_of offered.now.pdu) (sent_call sending origin.now offered.now)) }
        ensures err { OnErr result (self.new.journal ≡ self.old.journal) }
        ensures place { self.new.place ≡ self.old.place }

        ensures memory { result ≡ Err CallError.Memory → IsTrue (tells_kept (answer (record_of self.old.journal (room_of offered.now.pdu)) (sent_call sending origin.now offered.now))) }
        ensures storage { result ≡ Err CallError.Storage → (self.old.is_refused ≡ true) ⊎ Rose (K.failed self.old.keeper) (K.failed self.new.keeper) }
        ensures refused { IsErrOf result CallError.Storage ↔ (self.new.is_refused ≡ true) }
        ensures stays_refused { self.old.is_refused ≡ true → result ≡ Err CallError.Storage }
        ensures counted { K.failed self.old.keeper ≤ K.failed self.new.keeper }

        // As of `host`.
        ensures honest { K.is_honest self.new.keeper → K.is_honest self.old.keeper }
        ensures durable { K.is_honest self.new.keeper → OnOk result ((left : Option (List ShardRow)) → K.may_leave self.new.keeper left → left ≡ Some (stored self.new.journal)) }
        ensures crash { K.is_honest self.new.keeper → (left : Option (List ShardRow)) → K.may_leave self.new.keeper left
            → K.may_leave self.old.keeper left ⊎ (left ≡ Some (stored (journal_after self.old.journal caller (room_of offered.now.pdu) (sent_call sending origin.now offered.now)))) }
    {
        if self.is_refused {
            return Err(CallError::Storage);
        }
        match offering_in(
            self.alloc,
            &mut self.rooms,
            &self.numbers,
            caller,
            sending,
            origin,
            offered,
        )? {
            Offering::Answered(answer) => Ok(answer),
            Offering::Prepared(new) => {
                match store_with_place(
                    &mut self.keeper,
                    &mut self.is_refused,
                    &mut self.journal,
                    &mut self.holders,
                    &offered.id,
                    &new,
                ) {
                    Ok(()) => Ok(install_in(&mut self.rooms, &mut self.journal, caller, new)),
                    Err(error) => {
                        discard_in(&mut self.rooms, new);
                        Err(error)
                    }
                }
            }
        }
    }

    /// The answer to a server's query, at a moment: that of the room which it names, or what some room of this place
    /// shows.
    ///
    /// `Memory` where that room, or some room, gives something and no memory is left for it: it stands in for no denial.
    /// `Storage` exactly where an earlier call was refused so. A query by an event's id alone is put only to the room that
    /// holds the event, which one look-up finds.
    ///
    /// Source: the Matrix specification, Server-Server API, "Retrieving events" and "Backfilling and retrieving missing
    /// events".
    pub fn ask(&self, origin: &ServerName, now: Moment, query: &Query) -> Result<Answer, CallError>
        ensures reply { IfOk result (λ reply. IsAnswer (record_of self.now.journal) (to_ask origin.now now query.now) (call_room (to_ask origin.now now query.now)) reply) }
        // Each room is of this place.
        ensures here { All (λ entry. IsTrue (is_at self.now.place entry.room)) self.now.journal }
        ensures memory { result ≡ Err CallError.Memory → HasShown (record_of self.now.journal) (to_ask origin.now now query.now) (call_room (to_ask origin.now now query.now)) }
        ensures storage { IsErrOf result CallError.Storage ↔ (self.now.is_refused ≡ true) }
    {
        if self.is_refused {
            return Err(CallError::Storage);
        }
        let answer = answer_among(
            self.alloc,
            &self.rooms,
            &self.numbers,
            &self.holders,
            origin,
            now,
            query,
        )?;
        Ok(answer)
    }

    /// Whether an entry of its journal has this id. It takes no memory, and the time is that of two look-ups.
    pub fn holds(&self, id: &EventId) -> bool
        ensures { result ≡ has_id self.now.journal id.now }
    {
        is_held_among(&self.rooms, &self.holders, id)
    }

    /// Its rooms, in the order in which they were hosted.
    pub fn rooms(&self) -> &[Room]
        ensures { AreRoomsOf self.now.journal result.now }
    {
        &self.rooms
    }

    /// The room with this id, where it is hosted.
    pub fn into_room(self, id: &RoomId) -> Option<Room>
        ensures room { IfSome result (λ room. room ≡ record { id = id.now; kept = record_of self.journal id.now; prepared = None }) }
        ensures absent { result ≡ None → record_of self.journal id.now ≡ [] }
    {
        taken_room(self.rooms, &self.numbers, id)
    }

    /// What keeps its rows.
    pub fn into_keeper(self) -> K
        ensures keeper { result ≡ self.keeper }
        ensures rows { self.is_refused ≡ false → K.is_honest result → K.is_open result × (K.rows result ≡ Some (stored self.journal)) }
    {
        self.keeper
    }
}
