// What is noted of a keeper that failed, for who runs the program.
ghost use Rattle.std.specs.Prelude.{◌≡◌, ◌↔◌, IsTrue};

use crate::faults::KeeperFault;
use once_cell::race::{OnceBool, OnceBox};
use sqlite::Error;
use std::alloc::Global;
use std::sync::Arc;

/// Whether a keeper has failed, and what SQLite said of the first row that it refused.
///
/// It is written once and takes no lock, so that who reads it from another thread waits for nobody.
#[derive(Drop)]
pub struct FailureNote {
    has_failed: OnceBool,
    words: OnceBox<Error>,
}

impl FailureNote {
    /// Nothing is noted.
    pub fn new(alloc: Global) -> FailureNote {
        FailureNote {
            has_failed: OnceBool::new(),
            words: OnceBox::new(alloc),
        }
    }

    /// Whether the keeper has failed.
    pub fn has_failed(&self) -> bool {
        self.has_failed.get().is_some()
    }

    /// What SQLite said. It is not there where SQLite was not asked, or where no memory was left to note it.
    pub fn words(&self) -> Option<&Error> {
        self.words.get()
    }

    fn note(&self, alloc: Global, words: Option<Error>) {
        if let Some(words) = words {
            if let Ok(words) = Box::new(alloc, words) {
                let _ = self.words.set(words);
            }
        }
        let _ = self.has_failed.set(true);
    }
}

// Whether a failure is noted: where what holds the rows refused a statement, and never for want of memory.
fn is_noted(fault: KeeperFault) -> bool
    ensures { IsTrue result ↔ (fault ≡ KeeperFault.Store) }
{
    matches!(fault, KeeperFault::Store)
}

// Notes a failure of what holds the rows, where somebody asks for it.
pub(crate) fn note_failure(
    note: &Option<Arc<FailureNote>>,
    alloc: Global,
    fault: KeeperFault,
    words: Option<Error>,
) {
    if let Some(note) = note {
        if is_noted(fault) {
            note.note(alloc, words);
        }
    }
}
