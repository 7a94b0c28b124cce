// What hands lines to who writes them.

use crate::line_queues::LineQueue;
use std::alloc::{AllocError, Global};
use std::sync::{Arc, Condvar, Mutex, Wait};
use std::time::{Clock, Duration};

/// What is to be written next.
#[derive(Drop)]
pub(crate) enum NextLine<L> {
    // A line.
    Line(L),
    // That so many lines were dropped.
    Dropped(u64),
}

// The lines that wait, whether more will come, and whether who writes them waits for one, or writes.
#[derive(Drop)]
struct LineState<L> {
    lines: LineQueue<L>,
    is_closed: bool,
    is_awaited: bool,
    is_writing: bool,
}

impl<L: Drop> LineState<L> {
    // What is written next; none where nothing waits.
    fn next(&mut self) -> Option<NextLine<L>> {
        if let Some(line) = self.lines.next_line() {
            return Some(NextLine::Line(line));
        }
        match self.lines.take_dropped() {
            0 => None,
            count => Some(NextLine::Dropped(count)),
        }
    }

    // Whether all that came is written.
    fn is_written(&self) -> bool {
        self.lines.is_empty() && !self.is_writing
    }
}

#[derive(Drop)]
struct SharedLines<L> {
    state: Mutex<LineState<L>>,
    changed: Condvar,
}

/// Hands lines to who writes them, from any thread. It never waits for a write.
#[derive(Drop)]
pub struct QueueSender<L> {
    shared: Arc<SharedLines<L>>,
}

/// Hands over lines of text.
pub type LineSender = QueueSender<Vec<u8>>;

impl<L: Drop> QueueSender<L> {
    /// No line was handed over yet, and so many may wait.
    pub fn new(alloc: Global, most: usize) -> Result<QueueSender<L>, AllocError> {
        let lines = LineQueue::new(alloc, most)?;
        let state = LineState {
            lines,
            is_closed: false,
            is_awaited: false,
            is_writing: false,
        };
        let shared = SharedLines {
            state: Mutex::new(state),
            changed: Condvar::new(),
        };
        Ok(QueueSender {
            shared: Arc::new(alloc, shared)?,
        })
    }

    /// The same, for another thread.
    pub fn another(&self) -> Result<QueueSender<L>, AllocError> {
        Ok(QueueSender {
            shared: Arc::try_clone(&self.shared)?,
        })
    }

    /// Hands a line over. Where there is no room for it, it is counted.
    pub fn send<R: Wait>(&self, rt: &R, line: L) {
        let mut state = self.shared.state.lock(rt);
        state.lines.add(line);
        self.wake(&mut state);
    }

    /// Counts a line that could not be made, since no memory was left.
    pub fn send_dropped<R: Wait>(&self, rt: &R) {
        let mut state = self.shared.state.lock(rt);
        state.lines.add_dropped();
        self.wake(&mut state);
    }

    /// How many lines were dropped in all since it was made: those that found no room, and those that could not be made.
    pub fn dropped<R: Wait>(&self, rt: &R) -> u64 {
        self.shared.state.lock(rt).lines.dropped_in_all()
    }

    // Wakes who writes lines, if a line is waited for.
    fn wake(&self, state: &mut LineState<L>) {
        if state.is_awaited {
            state.is_awaited = false;
            self.shared.changed.notify_all();
        }
    }

    /// No line comes any more. It waits until all are written, or for so long.
    pub fn close<R: Wait + Clock>(&self, rt: &R, longest: Duration) {
        let mut state = self.shared.state.lock(rt);
        state.is_closed = true;
        self.shared.changed.notify_all();
        let _ = self
            .shared
            .changed
            .wait_timeout_while(rt, state, longest, |state| !state.is_written());
    }

    /// Waits for a line, now that all that were taken are written. False once no line comes any more.
    pub(crate) fn wait<R: Wait>(&self, rt: &R) -> bool {
        let mut state = self.shared.state.lock(rt);
        state.is_writing = false;
        self.shared.changed.notify_all();
        for _ in rt.forever() {
            if !state.lines.is_empty() {
                state.is_writing = true;
                return true;
            }
            if state.is_closed {
                return false;
            }
            state.is_awaited = true;
            state = self.shared.changed.wait(rt, state);
        }
        unreachable!()
    }

    /// What is to be written next of what waits; none where nothing does.
    pub(crate) fn next<R: Wait>(&self, rt: &R) -> Option<NextLine<L>> {
        self.shared.state.lock(rt).next()
    }
}

impl LineSender {
    /// Hands over a text as a line. Where no memory is left for it, it is counted.
    pub fn send_text<R: Wait>(&self, rt: &R, text: Result<String, AllocError>) {
        match ended(text) {
            Ok(line) => self.send(rt, line),
            Err(_refused) => self.send_dropped(rt),
        }
    }
}

// A text with the end of its line.
fn ended(text: Result<String, AllocError>) -> Result<Vec<u8>, AllocError> {
    let mut line = text?;
    line.push('\n')?;
    Ok(line.into_bytes())
}
