// How many connections were closed for want of room, to who tells that.
use std::alloc::{AllocError, Global};
use std::sync::Arc;
use std::sync::atomic::{AtomicU64, Ordering};

/// How many connections of a listener were closed for want of room since that was asked last.
#[derive(Drop)]
pub struct RoomClosings {
    count: Arc<AtomicU64>,
}

impl RoomClosings {
    /// None was closed.
    pub fn new(alloc: Global) -> Result<RoomClosings, AllocError> {
        Ok(RoomClosings {
            count: Arc::new(alloc, AtomicU64::new(0))?,
        })
    }

    /// The same, to somebody else.
    pub fn another(&self) -> Result<RoomClosings, AllocError> {
        Ok(RoomClosings {
            count: Arc::try_clone(&self.count)?,
        })
    }

    /// One more was closed.
    pub fn note(&self) {
        self.count.fetch_add(1, Ordering::SeqCst);
    }

    /// How many were closed since this was asked last.
    pub fn take(&self) -> u64 {
        self.count.swap(0, Ordering::SeqCst)
    }
}
