// What a server says, and who writes it.
use mx_admin::{Failures, LogFile, LogRecord, NoticeOutput, NoticePaths, RecordLog};
use mx_directory::{ServerError, StartError};
use mx_line_queue::{LineSender, QueueSender, QueuedLine, start_writer};
use mx_options::ServerLog;
use std::alloc::{AllocError, AllocGlobal};
use std::io::{ErrorKind, Write};
use std::sync::Wait;
use std::thread::Threads;
use std::time::{Clock, Duration};

// How many lines may wait to be written.
const MOST_WAITING_LINES: usize = 4096;

// How long the program waits at its end for lines to be written.
const SECONDS_FOR_LAST_LINES: u64 = 1;

/// Where a server tells who runs it what happens: through lines, through a log, where it keeps one, and the files that failed.
#[derive(Drop)]
pub struct ServerTold {
    pub lines: LineSender,
    pub log: Option<RecordLog>,
    pub failures: Failures,
}

/// The lines for who runs a server, on their way to standard error, to the log, where there is one, and to who asks at the admin
/// port. Threads of their own write them, which nobody waits for but the end of the program, for a second.
#[derive(Drop)]
pub struct ServerLines {
    pub lines: LineSender,
    // None where the log stands on standard error in their place.
    shown: Option<LineSender>,
    log: Option<RecordLog>,
    failures: Failures,
}

impl ServerLines {
    /// The lines of a server with this log, or with none. Where the log goes to standard error, it stands there in place of the
    /// lines.
    ///
    /// `ReadOrWrite` where the log's file can't be opened; `Thread` where a thread can't be started; `Memory` where no memory is
    /// left.
    pub fn open<R>(
        rt: &R,
        host: &HostRuntime,
        log: &Option<ServerLog>,
    ) -> Result<ServerLines, StartError>
    where
        R: Threads + Wait + Clock + AllocGlobal + Copy + Send + Drop + 'static,
    {
        let failures = Failures::new(rt.alloc())?;
        let shown = match log {
            Some(ServerLog { file: None, .. }) => None,
            _ => Some(lines_to(rt, host.stderr())?),
        };
        let log = match log {
            Some(log) => Some(log_of(rt, host, log)?),
            None => None,
        };
        let paths = NoticePaths {
            lines: another_sender(&shown)?,
            log: another(&log)?,
            failures: failures.another()?,
        };
        let lines = lines_to(rt, NoticeOutput::new(*rt, paths))?;
        Ok(ServerLines {
            lines,
            shown,
            log,
            failures,
        })
    }

    /// What the server is given of them. `AllocError` where no memory is left.
    pub fn told(&self) -> Result<ServerTold, AllocError> {
        Ok(ServerTold {
            lines: self.lines.another()?,
            log: another(&self.log)?,
            failures: self.failures.another()?,
        })
    }

    /// No line comes any more. It waits until all are written, or a second for each writer.
    pub fn close<R: Wait + Clock>(&self, rt: &R) {
        let longest = Duration::from_secs(SECONDS_FOR_LAST_LINES);
        self.lines.close(rt, longest);
        if let Some(shown) = &self.shown {
            shown.close(rt, longest);
        }
        if let Some(log) = &self.log {
            log.records.close(rt, longest);
        }
    }
}

fn another(log: &Option<RecordLog>) -> Result<Option<RecordLog>, AllocError> {
    match log {
        Some(log) => Ok(Some(log.another()?)),
        None => Ok(None),
    }
}

fn another_sender(lines: &Option<LineSender>) -> Result<Option<LineSender>, AllocError> {
    match lines {
        Some(lines) => Ok(Some(lines.another()?)),
        None => Ok(None),
    }
}

// The log that is asked for.
fn log_of<R>(rt: &R, host: &HostRuntime, log: &ServerLog) -> Result<RecordLog, StartError>
where
    R: Threads + Wait + Clock + AllocGlobal + Copy + Send + Drop + 'static,
{
    let records = match &log.file {
        Some(path) => records_of_file(rt, host, path)?,
        None => lines_to(rt, host.stderr())?,
    };
    Ok(RecordLog {
        records,
        form: log.form,
        level: log.level,
    })
}

fn records_of_file<R>(
    rt: &R,
    host: &HostRuntime,
    path: &str,
) -> Result<QueueSender<LogRecord>, StartError>
where
    R: Threads + Wait + Clock + AllocGlobal + Copy + Send + Drop + 'static,
{
    let alloc = rt.alloc();
    match LogFile::open(host, String::from_str(alloc, path)?) {
        Ok(file) => {
            let records = lines_to(rt, file)?;
            Ok(records)
        }
        Err(error) => Err(StartError::of_io(alloc, path, &error)),
    }
}

// What hands lines to a thread that writes them. The error is want of memory, or that the thread can't be started.
fn lines_to<R, L, W>(rt: &R, out: W) -> Result<QueueSender<L>, ServerError>
where
    R: Threads + Wait + Clock + AllocGlobal + Copy + Send + Drop + 'static,
    L: QueuedLine + Send + Drop + 'static,
    W: Write + Send + Drop + 'static,
{
    let Ok(lines) = QueueSender::new(rt.alloc(), MOST_WAITING_LINES) else {
        return Err(ServerError::Memory);
    };
    let Ok(another) = lines.another() else {
        return Err(ServerError::Memory);
    };
    match start_writer(rt, another, out) {
        Ok(()) => Ok(lines),
        Err(error) if error.kind() == ErrorKind::OutOfMemory => Err(ServerError::Memory),
        Err(_error) => Err(ServerError::Thread),
    }
}
