// The files of rows of a server, and what is told where one fails or is lost.
use crate::file_states::{FileState, RecordedCount};
use crate::opened_names::{NameLoss, OpenedName};
use crate::watched_keepers::WatchedKeeper;
use mx_keeper::{FailureNote, SqliteKeeper, TableRow};
use mx_line_queue::LineSender;
use once_cell::race::OnceBool;
use sqlite::Alter;
use std::alloc::{AllocError, Global};
use std::rt::Files;
use std::sync::{Arc, Wait};

/// A file of rows and SQLite's log beside it, by their names; what its keeper notes where it fails; whether that was told; and
/// what the keeper and who watches the file tell each other.
#[derive(Drop)]
pub struct RowFile {
    rows: OpenedName,
    // None where it stands elsewhere, beside the file that a link leads to.
    log: Option<OpenedName>,
    note: Arc<FailureNote>,
    is_told: OnceBool,
    state: Arc<FileState>,
    recorded: RecordedCount,
}

impl RowFile {
    /// A file that is open, whose keeper notes its failure here.
    pub(crate) fn new(
        rows: OpenedName,
        log: Option<OpenedName>,
        note: Arc<FailureNote>,
        state: Arc<FileState>,
    ) -> RowFile {
        RowFile {
            rows,
            log,
            note,
            is_told: OnceBool::new(),
            state,
            recorded: RecordedCount::new(),
        }
    }

    /// A keeper around the one of this file, which is told once the file is lost.
    pub(crate) fn watched<S: Alter + Drop, R: TableRow>(
        &self,
        keeper: SqliteKeeper<S, R>,
    ) -> Result<WatchedKeeper<S, R>, AllocError> {
        let state = Arc::try_clone(&self.state)?;
        Ok(WatchedKeeper::new(keeper, state))
    }

    /// Its path.
    pub(crate) fn path(&self) -> &str {
        self.rows.path()
    }

    /// Its name in its directory.
    pub(crate) fn name(&self) -> &str {
        match self.path().rsplit_once('/') {
            Some((_directory, name)) => name,
            None => self.path(),
        }
    }

    /// How many rows it was last said to have in a file of its directory.
    pub(crate) fn recorded(&self) -> &RecordedCount {
        &self.recorded
    }

    /// How many rows it has, each of which is on the disk.
    pub(crate) fn count(&self) -> u64 {
        self.state.rows()
    }

    // What is said of it where it failed, and why, the first time that this is asked since it did and memory is left for the
    // line.
    fn failure(&self, alloc: Global) -> Option<String> {
        if !self.note.has_failed() || self.is_told.get().is_some() {
            return None;
        }
        let line = self.line(alloc).ok()?;
        self.is_told.set(true).ok()?;
        Some(line)
    }

    // What is said of it once it has failed.
    fn line(&self, alloc: Global) -> Result<String, AllocError> {
        let path = self.path();
        match self.note.words() {
            Some(words) => format!(in alloc;
                "storage: {path}: {words}; what was answered is kept, and a new start opens it"
            ),
            None => format!(in alloc;
                "storage: {path}: a row was refused; what was answered is kept, and a new start opens it"
            ),
        }
    }

    // Whether it and its log still have their names. Once one has not, its keeper refuses rows, and who runs the server is told.
    fn has_name<R: Wait, F: Files>(
        &self,
        rt: &R,
        system: &F,
        alloc: Global,
        lines: &LineSender,
    ) -> bool {
        if self.state.is_lost() {
            return false;
        }
        let Some((path, loss)) = self.loss(system) else {
            return true;
        };
        self.state.lose();
        lines.send_text(rt, lost_text(alloc, path, loss));
        false
    }

    // Which of its names is lost, and how; none where the file and its log have theirs.
    fn loss<F: Files>(&self, system: &F) -> Option<(&str, NameLoss)> {
        if let Some(loss) = self.rows.loss(system) {
            return Some((self.rows.path(), loss));
        }
        let log = self.log.as_ref()?;
        let loss = log.loss(system)?;
        Some((log.path(), loss))
    }
}

/// The files of rows of a server, who is told of them, and whether the server ends once one of them has failed.
#[derive(Drop)]
pub struct RowFiles {
    pub files: Vec<RowFile>,
    pub lines: LineSender,
    pub stop_on_failure: bool,
}

impl RowFiles {
    /// Who runs the server is told of each file that has failed, once.
    pub fn tell<R: Wait>(&self, rt: &R, alloc: Global) {
        for file in &self.files {
            if let Some(line) = file.failure(alloc) {
                self.lines.send_text(rt, Ok(line));
            }
        }
    }

    /// Looks whether each file and its log still have their names. The keeper of one that has lost its name refuses rows from
    /// then on, since the next start would not find them, and who runs the server is told, once. Whether each has its name.
    pub fn look<R: Wait, F: Files>(&self, rt: &R, system: &F, alloc: Global) -> bool {
        let mut have_names = true;
        for file in &self.files {
            have_names &= file.has_name(rt, system, alloc, &self.lines);
        }
        have_names
    }
}

// What is said of a file that has lost its name.
fn lost_text(alloc: Global, path: &str, loss: NameLoss) -> Result<String, AllocError> {
    format!(in alloc;
        "storage: {path}: {loss}; it takes no more rows, and a new start finds those in it only under that name"
    )
}
