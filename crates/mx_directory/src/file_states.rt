// What the keeper of a file and who watches the file tell each other.

use std::sync::atomic::{AtomicBool, AtomicU64, Ordering};

/// Whether a file of rows is lost, and how many rows it has. Both may be asked and told from any thread.
#[derive(Drop)]
pub(crate) struct FileState {
    is_lost: AtomicBool,
    rows: AtomicU64,
}

impl FileState {
    /// It is not lost, and nothing is known of its rows.
    pub(crate) fn new() -> FileState {
        FileState {
            is_lost: AtomicBool::new(false),
            rows: AtomicU64::new(0),
        }
    }

    /// The file is no longer under its name.
    pub(crate) fn lose(&self) {
        self.is_lost.store(true, Ordering::SeqCst);
    }

    pub(crate) fn is_lost(&self) -> bool {
        self.is_lost.load(Ordering::SeqCst)
    }

    /// It has so many rows.
    pub(crate) fn found_rows(&self, rows: u64) {
        self.rows.store(rows, Ordering::SeqCst);
    }

    /// It has a row more.
    pub(crate) fn added_row(&self) {
        self.rows.fetch_add(1, Ordering::SeqCst);
    }

    /// How many rows it has. They are on the disk.
    pub(crate) fn rows(&self) -> u64 {
        self.rows.load(Ordering::SeqCst)
    }
}

/// A count that was written to a file; none where it was not yet. It may be asked and told from any thread.
#[derive(Drop)]
pub(crate) struct RecordedCount {
    count: AtomicU64,
}

// Stands for no count.
const NOT_RECORDED: u64 = u64::MAX;

impl RecordedCount {
    pub(crate) fn new() -> RecordedCount {
        RecordedCount {
            count: AtomicU64::new(NOT_RECORDED),
        }
    }

    /// This count is written now. Whether that is another one than was written last.
    pub(crate) fn note(&self, count: u64) -> bool {
        self.count.swap(count, Ordering::SeqCst) != count
    }

    /// What was to be written was not.
    pub(crate) fn forget(&self) {
        self.count.store(NOT_RECORDED, Ordering::SeqCst);
    }
}
