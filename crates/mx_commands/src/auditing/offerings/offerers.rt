// Who offers an event, and how.
use mx_ident::ServerName;
use mx_lines::Offering;
use mx_world::TransactionKey;
use std::alloc::{AllocError, Global};

/// Who offers an event: a server in a transaction, a server that sends a join, or nobody else, where a line hosts a room.
#[derive(Clone, Copy, Debug)]
pub(crate) struct Offerer<'a> {
    origin: Option<&'a ServerName>,
    transaction: Option<&'a str>,
}

impl<'a> Offerer<'a> {
    /// A server, in this transaction.
    pub(crate) fn sending(key: &'a TransactionKey) -> Offerer<'a> {
        Offerer {
            origin: Some(&key.origin),
            transaction: Some(key.txn.as_str()),
        }
    }

    /// A server that sends a join.
    pub(crate) fn joining(origin: &'a ServerName) -> Offerer<'a> {
        Offerer {
            origin: Some(origin),
            transaction: None,
        }
    }

    /// No other server.
    pub(crate) fn nobody() -> Offerer<'a> {
        Offerer {
            origin: None,
            transaction: None,
        }
    }

    /// Its offering, where the room had so many events.
    pub(crate) fn offering(self, alloc: Global, after: usize) -> Result<Offering, AllocError> {
        let origin = match self.origin {
            Some(origin) => Some(origin.clone()?),
            None => None,
        };
        let transaction = match self.transaction {
            Some(transaction) => Some(String::from_str(alloc, transaction)?),
            None => None,
        };
        Ok(Offering {
            after,
            origin,
            transaction,
        })
    }
}
