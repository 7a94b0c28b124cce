// The transactions of a log that are open, with their events.
use mx_pdu::{Offered, Pdu};
use mx_world::TransactionKey;
use std::alloc::{AllocError, Global};
use std::collections::BTreeMap;

// The events of a transaction, and how many of them had their turn.
#[derive(Drop)]
struct OpenTransaction {
    events: Vec<Pdu>,
    turns: usize,
}

/// The transactions that are open.
#[derive(Drop)]
pub(crate) struct OpenTransactions {
    by_key: BTreeMap<TransactionKey, OpenTransaction>,
}

impl OpenTransactions {
    /// None is open.
    pub(crate) fn new(alloc: Global) -> OpenTransactions {
        OpenTransactions {
            by_key: BTreeMap::new(alloc),
        }
    }

    /// A transaction is open from now on, with these events.
    pub(crate) fn open(
        &mut self,
        alloc: Global,
        key: &TransactionKey,
        events: &[Offered],
    ) -> Result<(), AllocError> {
        let mut pdus = Vec::with_capacity(alloc, events.len())?;
        for event in events {
            pdus.push(event.pdu.clone()?)?;
        }
        let opened = OpenTransaction {
            events: pdus,
            turns: 0,
        };
        self.by_key.insert(key.clone()?, opened)?;
        Ok(())
    }

    /// The event whose turn it was, which has had it now.
    pub(crate) fn next(&mut self, key: &TransactionKey) -> Result<Option<Pdu>, AllocError> {
        let Some(open) = self.by_key.get_mut(key) else {
            return Ok(None);
        };
        let turn = open.turns;
        open.turns = turn.saturating_add(1);
        match open.events.get(turn) {
            Some(event) => Ok(Some(event.clone()?)),
            None => Ok(None),
        }
    }

    /// A transaction is closed from now on.
    pub(crate) fn close(&mut self, key: &TransactionKey) {
        let _closed = self.by_key.remove(key);
    }
}
