// A log of records.
use mx_line_queue::{QueueSender, QueuedLine};
use mx_records::{LevelFilter, Record, RecordForm, Subject, record_line};
use std::alloc::{AllocError, Global};
use std::io::{self, Write};
use std::sync::Wait;
use std::time::Clock;

/// A record on its way to a log, and as what it is written there.
#[derive(Drop)]
pub struct LogRecord {
    record: Record,
    form: RecordForm,
}

impl QueuedLine for LogRecord {
    fn write_to<W: Write>(&self, alloc: Global, out: &mut W) -> io::Result<()> {
        let line = record_line(alloc, self.form, &self.record)?;
        out.write_all(&line)
    }
}

/// A log: who writes its records, in which form, and how much a record has to matter.
#[derive(Drop)]
pub struct RecordLog {
    pub records: QueueSender<LogRecord>,
    pub form: RecordForm,
    pub level: LevelFilter,
}

impl RecordLog {
    /// The same, for another thread. `AllocError` where no memory is left.
    pub fn another(&self) -> Result<RecordLog, AllocError> {
        Ok(RecordLog {
            records: self.records.another()?,
            form: self.form,
            level: self.level,
        })
    }

    /// Hands a record of this moment over, if it matters enough. It waits for no write, and makes no text: who writes the log
    /// does.
    pub fn tell<R: Wait + Clock>(&self, rt: &R, subject: Subject) {
        let record = Record {
            at: milliseconds(rt),
            subject,
        };
        if self.level.allows(record.level()) {
            let form = self.form;
            self.records.send(rt, LogRecord { record, form });
        }
    }

    /// A record can't be had: a line counts as dropped.
    pub fn tell_dropped<R: Wait>(&self, rt: &R) {
        self.records.send_dropped(rt);
    }
}

/// The moment of a clock, in milliseconds since 1970; 0 where it can't be read.
pub(crate) fn milliseconds<C: Clock>(clock: &C) -> u64 {
    match clock.since_1970() {
        Ok(time) => u64::try_from(time.as_millis()).unwrap_or(u64::MAX),
        Err(_error) => 0,
    }
}
