// What looks after the files of a running server, in a thread beside those that answer.

use mx_directory::{RowFiles, ServerError, StartError};
use mx_http::{ConnectionFigures, ListenerHandle, ServerRuntime};
use once_cell::race::OnceBool;
use std::alloc::{AllocError, Global};
use std::io::{self, Write};
use std::sync::{Arc, OnceLock, Wait};
use std::thread::{self, Builder};
use std::time::Duration;

// How many seconds pass until the numbers of rows are written again, and until it is told again that rows are judged.
const SECONDS_BETWEEN: u64 = 10;

/// The files of rows of a server, where they are, and the listener's handle once it takes connections in.
#[derive(Drop)]
pub struct FileWatch {
    host: HostRuntime,
    files: Arc<RowFiles>,
    data: String,
    listener: OnceLock<ListenerHandle>,
    // Whether it was told that the numbers of rows can't be written.
    is_told: OnceBool,
}

impl FileWatch {
    /// These files are in this directory, and no connections are taken in yet.
    pub fn new(
        alloc: Global,
        host: &HostRuntime,
        files: RowFiles,
        data: &str,
    ) -> Result<FileWatch, AllocError> {
        Ok(FileWatch {
            host: *host,
            files: Arc::new(alloc, files)?,
            data: String::from_str(alloc, data)?,
            listener: OnceLock::new(),
            is_told: OnceBool::new(),
        })
    }

    /// The files.
    pub fn files(&self) -> Result<Arc<RowFiles>, AllocError> {
        Arc::try_clone(&self.files)
    }

    /// Connections are taken in from now on, by the listener with this handle.
    pub fn begin(&self, handle: ListenerHandle) {
        let _ = self.listener.try_set(handle);
    }

    /// How many replies to transactions are kept.
    pub fn kept_transactions(&self) -> u64 {
        self.files.kept_transactions()
    }

    /// What the connections do; none before they are taken in.
    pub fn connections<R: Wait>(&self, rt: &R) -> Option<ConnectionFigures> {
        let listener = self.listener.get()?;
        Some(listener.connections.figures(rt))
    }

    /// Compares how many rows each file has with how many it had, and writes how many it has.
    ///
    /// Where one has fewer, that is `Storage`, unless the loss is accepted: then `err` is told of each. `Memory` where no
    /// memory is left.
    pub fn check_counts<R: Wait, E: Write>(
        &self,
        rt: &R,
        is_accepted: bool,
        err: &mut E,
    ) -> Result<(), StartError> {
        let losses = self
            .files
            .check_counts(&self.host, &self.data, is_accepted)?;
        for loss in losses {
            let _ = writeln!(err, "{loss}");
        }
        self.record_counts(rt);
        Ok(())
    }

    // Writes how many rows each file has. Where that fails, it is told once.
    fn record_counts<R: Wait>(&self, rt: &R) {
        let recorded = self.files.record_counts(&self.host, &self.data);
        if let Err(error) = recorded {
            if self.is_told.set(true).is_ok() {
                let text = unrecorded(self.host.alloc(), &self.data, &error);
                self.files.lines.send_text(rt, text);
            }
        }
    }

    // Looks after the files once more, in this second since the first time.
    fn look<R: ServerRuntime>(&self, rt: &R, second: u64) {
        let is_turn = second % SECONDS_BETWEEN == 0;
        let has_all = self.files.look(rt, &self.host, rt.alloc());
        match self.listener.get() {
            Some(listener) => {
                self.tell_closings(rt, listener.closings.take());
                if !has_all && self.files.stop_on_failure {
                    listener.ending.want(rt);
                } else if has_all && is_turn {
                    self.record_counts(rt);
                }
            }
            None if is_turn => self.tell_judging(rt, second),
            None => {}
        }
    }

    // Tells how many connections were closed for want of room, if some were.
    fn tell_closings<R: ServerRuntime>(&self, rt: &R, count: u64) {
        if count > 0 {
            let text = format!(in rt.alloc(); "memory: connections closed to make room: {count}");
            self.files.lines.send_text(rt, text);
        }
    }

    // Tells that the server does not take connections in yet.
    fn tell_judging<R: ServerRuntime>(&self, rt: &R, second: u64) {
        let data = self.data.as_str();
        let count = self.files.files.len();
        let text = format!(in rt.alloc();
            "{data}: starting for {second} seconds; the rows of {count} files are judged"
        );
        self.files.lines.send_text(rt, text);
    }
}

// What is said where the numbers of rows can't be written.
fn unrecorded(alloc: Global, data: &str, error: &io::Error) -> Result<String, AllocError> {
    format!(in alloc;
        "{data}/rows.json: {error}; the next start may not notice where rows are lost"
    )
}

/// Starts the thread that looks after the files each second, for as long as the program runs.
///
/// `Thread` where it can't be started.
pub fn start_file_watch<R: ServerRuntime + 'static>(
    rt: &R,
    watch: Arc<FileWatch>,
) -> Result<(), StartError> {
    let runtime = *rt;
    let started = Builder::new().spawn(rt, move || look_on(&runtime, &watch));
    match started {
        Ok(_handle) => Ok(()),
        Err(_error) => Err(StartError::from(ServerError::Thread)),
    }
}

fn look_on<R: ServerRuntime>(rt: &R, watch: &FileWatch) {
    for second in 1..u64::MAX {
        thread::sleep(rt, Duration::from_secs(1));
        watch.look(rt, second);
    }
}
