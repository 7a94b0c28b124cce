// What an operator is shown of a server, at a port of its own.
use crate::file_watch::FileWatch;
use mx_admin::{AdminSource, Desk, Failures, RoomDesk, RoomOrder, RoomsReply, serve_admin};
use mx_directory::{ServerError, StartError};
use mx_http::{ConnectionFigures, ServerRuntime};
use mx_metrics::{
    Family, FamilyKind, Figure, Label, Labels, metrics_text, write_family, write_sample,
    write_shards,
};
use std::alloc::{AllocError, Global};
use std::net::TcpListener;
use std::sync::{Arc, Wait};
use std::thread::Builder;
use std::time::{Clock, Duration};

const OPEN_TRANSACTIONS: Family<'static> = Family {
    name: "mx_federd_open_transactions",
    help: "Transactions that are being answered.",
    kind: FamilyKind::Gauge,
};

const KEPT_TRANSACTIONS: Family<'static> = Family {
    name: "mx_federd_kept_transactions",
    help: "Transactions whose replies are kept.",
    kind: FamilyKind::Gauge,
};

const FAILED_FILES: Family<'static> = Family {
    name: "mx_federd_failed_files",
    help: "Files of rows that have failed.",
    kind: FamilyKind::Gauge,
};

const LASTING_GAPS: Family<'static> = Family {
    name: "mx_federd_lasting_gaps",
    help: "Servers of which 100 events or more in a row were refused with missing events, and none was kept since.",
    kind: FamilyKind::Gauge,
};

const DROPPED_LOG_LINES: Family<'static> = Family {
    name: "mx_federd_dropped_log_lines_total",
    help: "Lines of the log that were dropped.",
    kind: FamilyKind::Counter,
};

const CONNECTIONS: Family<'static> = Family {
    name: "mx_federd_connections",
    help: "Open connections: idle ones, slow ones, whose clients are waited for within a request or a reply, and busy ones.",
    kind: FamilyKind::Gauge,
};

const HELD_BYTES: Family<'static> = Family {
    name: "mx_federd_held_bytes",
    help: "Bytes that are held of bodies that come and of replies that go, as the limit of memory counts them.",
    kind: FamilyKind::Gauge,
};

// How long who has the rooms may take for an order, in milliseconds.
const LONGEST_ORDER: u64 = 1_000;

const START_TIME: Family<'static> = Family {
    name: "mx_federd_start_time_seconds",
    help: "When connections were taken in first, in seconds since 1970.",
    kind: FamilyKind::Gauge,
};

/// What its threads counted, where its rooms are asked for, who looks after its files and connections, the files that failed,
/// and when it began to take connections in, in seconds since 1970.
#[derive(Drop)]
pub struct AdminView {
    pub desk: Desk,
    pub rooms: RoomDesk,
    pub watch: Arc<FileWatch>,
    pub failures: Failures,
    pub started: u64,
}

impl AdminView {
    // The figures that stand alone.
    fn figures<R: Wait>(&self, rt: &R) -> [Figure<'static>; 6] {
        [
            figure(OPEN_TRANSACTIONS, self.desk.open_transactions()),
            figure(KEPT_TRANSACTIONS, self.watch.kept_transactions()),
            figure(FAILED_FILES, self.failures.count(rt)),
            figure(LASTING_GAPS, self.desk.lasting_gaps(rt)),
            figure(DROPPED_LOG_LINES, self.desk.dropped_log_lines(rt)),
            figure(START_TIME, self.started),
        ]
    }
}

impl AdminSource for AdminView {
    fn failures<R: Wait>(&self, rt: &R) -> Result<String, AllocError> {
        self.failures.text(rt)
    }

    fn metrics<R: Wait>(&self, rt: &R, alloc: Global) -> Result<String, AllocError> {
        let counts = self.desk.counts(rt, alloc)?;
        let mut text = metrics_text(alloc, &counts, self.figures(rt).as_slice())?;
        if let Some(connections) = self.watch.connections(rt) {
            write_connections(&mut text, &connections)?;
        }
        let shards = self.rooms.shards(rt, alloc)?;
        write_shards(alloc, &mut text, &shards)?;
        Ok(text)
    }

    fn rooms<R: Wait + Clock>(&self, rt: &R) -> Option<RoomsReply> {
        let longest = Duration::from_millis(LONGEST_ORDER);
        self.rooms.ask(rt, RoomOrder::List, longest)
    }

    fn host_room<R: Wait + Clock>(&self, rt: &R, line: Vec<u8>) -> Option<RoomsReply> {
        let longest = Duration::from_millis(LONGEST_ORDER);
        self.rooms.ask(rt, RoomOrder::Host(line), longest)
    }
}

fn figure(family: Family<'static>, value: u64) -> Figure<'static> {
    Figure { family, value }
}

// Adds what the connections do, and how much is held for their clients.
fn write_connections(text: &mut String, figures: &ConnectionFigures) -> Result<(), AllocError> {
    let states = [
        ("idle", figures.idle),
        ("slow", figures.slow),
        ("busy", figures.busy),
    ];
    write_family(text, &CONNECTIONS)?;
    for (value, count) in states {
        let state = Label {
            name: "state",
            value,
        };
        write_sample(text, CONNECTIONS.name, &Labels::One(state), count)?;
    }
    write_family(text, &HELD_BYTES)?;
    write_sample(text, HELD_BYTES.name, &Labels::None, figures.held_bytes)
}

/// Starts the thread that answers at a listener, for as long as the program runs.
///
/// `Thread` where it can't be started.
pub fn start_admin<R: ServerRuntime + 'static>(
    rt: &R,
    listener: TcpListener,
    view: AdminView,
) -> Result<(), StartError> {
    let runtime = *rt;
    match Builder::new().spawn(rt, move || serve_admin(&runtime, &listener, &view)) {
        Ok(_handle) => Ok(()),
        Err(_error) => Err(StartError::from(ServerError::Thread)),
    }
}
