// What is held for the clients of a listener, to all threads, and who gives it back.
use crate::guards::{ConnectionHandle, moment};
use crate::memory::closings::RoomClosings;
use crate::memory::holdings::Holdings;
use futures::spin::lock;
use std::alloc::{AllocError, Global};
use std::sync::{Arc, Mutex, MutexGuard};
use std::time::{Clock, Instant};

/// Of a body or a reply, so many bytes or fewer are not counted, and never wait.
pub const SMALL: usize = 65_536;
// For how many milliseconds a client may take nothing of its reply while others wait for room.
const UNREAD_FOR: u64 = 1000;

/// All that is held for clients of a listener, and how much may be.
#[derive(Drop)]
pub struct MemoryBudget {
    holdings: Mutex<Holdings>,
}

impl MemoryBudget {
    /// Nothing is held, of at most so many bytes.
    pub fn new(alloc: Global, most: usize, closings: RoomClosings) -> MemoryBudget {
        MemoryBudget {
            holdings: Mutex::new(Holdings::new(alloc, most, closings)),
        }
    }

    /// How many bytes are held now.
    pub fn held_bytes(&self) -> u64 {
        match self.table() {
            Ok(table) => table.bytes() as u64,
            Err(_refused) => 0,
        }
    }

    fn table(&self) -> Result<MutexGuard<'_, Holdings>, AllocError> {
        lock(&self.holdings).ok_or(AllocError)
    }
}

/// A connection, to what is held for its client.
#[derive(Drop)]
pub struct Account {
    budget: Arc<MemoryBudget>,
    connection: Arc<ConnectionHandle>,
    start: Instant,
}

impl Account {
    /// Of a connection with this handle. Moments are milliseconds from `start`.
    pub fn new(
        budget: Arc<MemoryBudget>,
        connection: Arc<ConnectionHandle>,
        start: Instant,
    ) -> Account {
        Account {
            budget,
            connection,
            start,
        }
    }

    // The connection holds nothing any more of what it was asked to make room for.
    fn end_asking(&self) {
        let _ = self.connection.end_asking();
    }

    /// Whether the connection is to end now since it was asked to make room, and waits.
    pub fn makes_room(&self) -> bool {
        self.connection.makes_room()
    }

    pub fn moment<C: Clock>(&self, clock: &C) -> u64 {
        moment(clock, self.start)
    }

    // What closes the connection, to what is held for it.
    fn handle(&self) -> Result<Arc<ConnectionHandle>, AllocError> {
        Ok(Arc::try_clone(&self.connection)?)
    }
}

/// Bytes that are held for a client, and counted until this is dropped.
pub struct HeldBytes {
    account: Arc<Account>,
    number: u64,
}

impl Drop for HeldBytes {
    fn drop(self) {
        let HeldBytes { account, number } = self;
        if let Ok(mut table) = account.budget.table() {
            let _ = table.remove(number);
        }
    }
}

// Holds so many bytes, whether there is room for them or not.
fn hold(
    account: &Arc<Account>,
    table: &mut Holdings,
    bytes: usize,
    since: u64,
) -> Result<HeldBytes, AllocError> {
    let mine = Arc::try_clone(account)?;
    let number = table
        .add(bytes, since, account.handle()?)
        .ok_or(AllocError)?;
    Ok(HeldBytes {
        account: mine,
        number,
    })
}

// Holds so many bytes more, where there is room for them.
fn hold_more(
    account: &Arc<Account>,
    held: &mut Option<HeldBytes>,
    table: &mut Holdings,
    more: usize,
    since: u64,
) -> Result<bool, AllocError> {
    let own = match held {
        Some(held) => table.bytes_of(held.number),
        None => 0,
    };
    if !table.may_hold(own, more) {
        return Ok(false);
    }
    match held {
        Some(held) => {
            let bytes = own.checked_add(more).ok_or(AllocError)?;
            let _ = table.change(held.number, bytes, since).ok_or(AllocError)?;
        }
        None => *held = Some(hold(account, table, more, since)?),
    }
    Ok(true)
}

/// What is held for the client of a request, of its body and then of its reply.
#[derive(Drop)]
pub struct ClientMemory {
    account: Arc<Account>,
    held: Option<HeldBytes>,
}

impl ClientMemory {
    /// Nothing is held.
    pub fn new(account: Arc<Account>) -> ClientMemory {
        ClientMemory {
            account,
            held: None,
        }
    }

    pub fn account(&self) -> &Account {
        &self.account
    }

    /// Whether nothing is counted.
    pub fn is_empty(&self) -> bool {
        self.held.is_none()
    }

    /// Nothing is held any more.
    pub fn clear(&mut self) {
        self.held = None;
    }

    /// Holds so many bytes more of a body that began at this moment, and tells whether there is room for them.
    pub fn take(&mut self, more: usize, since: u64) -> Result<bool, AllocError> {
        let mut table = self.account.budget.table()?;
        hold_more(&self.account, &mut self.held, &mut table, more, since)
    }

    /// How many bytes a reply is taken to have until it is made.
    pub fn expected_reply(&self) -> Result<usize, AllocError> {
        Ok(self.account.budget.table()?.expected_reply())
    }

    /// It waits for room for so many bytes, and one that has waited longer is asked to make it.
    pub fn wait(&self, alloc: Global, more: usize, now: u64) -> Result<(), AllocError> {
        let mut table = self.account.budget.table()?;
        if let Some(held) = &self.held {
            table.note_waiting(held.number);
        }
        let _ = table.ask_first(alloc, now.saturating_sub(UNREAD_FOR), more);
        Ok(())
    }

    /// A long reply of so many bytes was made, which is all that is held now, whether there is room for it or not.
    pub fn hold_reply(&mut self, bytes: usize, now: u64) -> Result<(), AllocError> {
        let mut table = self.account.budget.table()?;
        self.account.end_asking();
        table.note_reply(bytes);
        match &self.held {
            Some(held) => {
                let _ = table.change(held.number, bytes, now).ok_or(AllocError)?;
            }
            None => self.held = Some(hold(&self.account, &mut table, bytes, now)?),
        }
        Ok(())
    }
}
