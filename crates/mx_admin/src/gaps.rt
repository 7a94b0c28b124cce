// Gaps that last: servers whose events are refused one after another, since events that they cite are missing.
use std::alloc::{AllocError, Global};
use std::collections::BTreeMap;

// How many events of a server are refused so, with none kept between them, until that is told.
const LASTING: u64 = 100;
// For how many servers it is counted.
const MOST_SERVERS: usize = 4096;

/// How many events of each server were refused since events that they cite are missing, since one of that server was kept.
#[derive(Drop)]
pub(crate) struct Gaps {
    counts: BTreeMap<String, u64>,
}

impl Gaps {
    /// None was refused.
    pub(crate) fn new(alloc: Global) -> Gaps {
        Gaps {
            counts: BTreeMap::new(alloc),
        }
    }

    /// One more of this server was refused. Whether that makes 100.
    ///
    /// `AllocError` where no memory is left: then it is not counted. Of more than 4,096 servers the others are not counted.
    pub(crate) fn note_missing(&mut self, alloc: Global, server: &str) -> Result<bool, AllocError> {
        if let Some(count) = self.counts.get_mut(server) {
            *count = count.saturating_add(1);
            return Ok(*count == LASTING);
        }
        if self.counts.len() < MOST_SERVERS {
            let name = String::from_str(alloc, server)?;
            self.counts.insert(name, 1).map_err(AllocError::from)?;
        }
        Ok(false)
    }

    /// Of how many servers 100 or more were refused so.
    pub(crate) fn lasting(&self) -> u64 {
        let mut lasting = 0u64;
        for (_server, count) in self.counts.iter() {
            if *count >= LASTING {
                lasting = lasting.saturating_add(1);
            }
        }
        lasting
    }

    /// One of this server was kept.
    pub(crate) fn note_kept(&mut self, server: &str) {
        let _ = self.counts.remove(server);
    }
}
