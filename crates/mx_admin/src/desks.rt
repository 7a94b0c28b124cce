// Where the threads of a server tell what they do.
use crate::gaps::Gaps;
use crate::record_logs::RecordLog;
use mx_line_queue::LineSender;
use mx_metrics::{EventResult, RouteLabel, ServerCounts, StatusLabel};
use mx_records::Subject;
use std::alloc::{AllocError, Global};
use std::sync::atomic::{AtomicBool, Ordering};
use std::sync::{Arc, Mutex, Wait};
use std::time::Clock;

// What a thread counts, and whether it answers a transaction now.
#[derive(Drop)]
struct ThreadDesk {
    counts: Mutex<ServerCounts>,
    is_in_transaction: AtomicBool,
}

// What all threads share: what each counts, the gaps that last, who is warned of them, and the log, where there is one.
#[derive(Drop)]
struct SharedDesk {
    threads: Vec<ThreadDesk>,
    gaps: Mutex<Gaps>,
    lines: LineSender,
    log: Option<RecordLog>,
}

/// Where the threads of a server tell what they did. None of them waits for a write, nor for who reads the counts but for
/// the moment of a copy.
#[derive(Drop)]
pub struct Desk {
    shared: Arc<SharedDesk>,
}

impl Desk {
    /// A desk for so many threads, with a log or with none. Who runs the server is warned through these lines. `AllocError` where
    /// no memory is left.
    pub fn new(
        alloc: Global,
        threads: u32,
        lines: LineSender,
        log: Option<RecordLog>,
    ) -> Result<Desk, AllocError> {
        let mut desks = Vec::new(alloc);
        for _thread in 0..threads {
            desks.push(ThreadDesk {
                counts: Mutex::new(ServerCounts::new(alloc)?),
                is_in_transaction: AtomicBool::new(false),
            })?;
        }
        let shared = SharedDesk {
            threads: desks,
            gaps: Mutex::new(Gaps::new(alloc)),
            lines,
            log,
        };
        Ok(Desk {
            shared: Arc::new(alloc, shared)?,
        })
    }

    /// The desk as a thread has it, which has this number from 0. `AllocError` where no memory is left.
    pub fn thread(&self, number: usize) -> Result<DeskThread, AllocError> {
        Ok(DeskThread {
            shared: Arc::try_clone(&self.shared)?,
            number,
        })
    }

    /// All that the threads counted so far. `AllocError` where no memory is left.
    pub fn counts<R: Wait>(&self, rt: &R, alloc: Global) -> Result<ServerCounts, AllocError> {
        let mut all = ServerCounts::new(alloc)?;
        for thread in &self.shared.threads {
            let counts = thread.counts.lock(rt);
            all.add(&*counts);
        }
        Ok(all)
    }

    /// How many threads answer a transaction now.
    pub fn open_transactions(&self) -> u64 {
        let mut count = 0u64;
        for thread in &self.shared.threads {
            if thread.is_in_transaction.load(Ordering::SeqCst) {
                count = count.saturating_add(1);
            }
        }
        count
    }

    /// How many lines of the log were dropped: none where there is no log.
    pub fn dropped_log_lines<R: Wait>(&self, rt: &R) -> u64 {
        match &self.shared.log {
            Some(log) => log.records.dropped(rt),
            None => 0,
        }
    }

    /// Of how many servers 100 events or more in a row were refused since events that they cite are missing, and none was kept
    /// since.
    pub fn lasting_gaps<R: Wait>(&self, rt: &R) -> u64 {
        self.shared.gaps.lock(rt).lasting()
    }
}

/// A desk, as one thread of a server has it.
#[derive(Drop)]
pub struct DeskThread {
    shared: Arc<SharedDesk>,
    number: usize,
}

impl DeskThread {
    /// Counts a reply, as `ServerCounts::note_reply` does.
    pub fn note_reply<R: Wait>(
        &self,
        rt: &R,
        route: RouteLabel,
        status: StatusLabel,
        microseconds: u64,
    ) {
        if let Some(thread) = self.shared.threads.get(self.number) {
            thread
                .counts
                .lock(rt)
                .note_reply(route, status, microseconds);
        }
    }

    /// Counts what became of an event that this server sent. Where 100 of its events in a row were refused since events that they
    /// cite are missing, and none was kept, who runs the server is warned.
    pub fn note_event<R: Wait>(&self, rt: &R, alloc: Global, origin: &str, became: EventResult) {
        if let Some(thread) = self.shared.threads.get(self.number) {
            thread.counts.lock(rt).note_event(became);
        }
        match became {
            EventResult::MissingEvents => self.note_missing(rt, alloc, origin),
            EventResult::Accepted | EventResult::Rejected => {
                self.shared.gaps.lock(rt).note_kept(origin);
            }
            _ => {}
        }
    }

    fn note_missing<R: Wait>(&self, rt: &R, alloc: Global, origin: &str) {
        let is_lasting = self.shared.gaps.lock(rt).note_missing(alloc, origin);
        if let Ok(true) = is_lasting {
            let text = format!(in alloc;
                "warning: {origin}: 100 of its events in a row were refused with missing events, and none was kept"
            );
            self.shared.lines.send_text(rt, text);
        }
    }

    /// Whether the thread answers a transaction from now on.
    pub fn set_in_transaction(&self, is_in: bool) {
        if let Some(thread) = self.shared.threads.get(self.number) {
            thread.is_in_transaction.store(is_in, Ordering::SeqCst);
        }
    }

    /// Whether there is a log.
    pub fn has_log(&self) -> bool {
        self.shared.log.is_some()
    }

    /// Hands a record to the log, where there is one.
    pub fn tell<R: Wait + Clock>(&self, rt: &R, subject: Subject) {
        if let Some(log) = &self.shared.log {
            log.tell(rt, subject);
        }
    }

    /// A record can't be had: where there is a log, a line of it counts as dropped.
    pub fn tell_dropped<R: Wait>(&self, rt: &R) {
        if let Some(log) = &self.shared.log {
            log.tell_dropped(rt);
        }
    }
}
