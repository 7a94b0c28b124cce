// `serve`: a server on loopback, over files.
ghost use Rattle.std.specs.Prelude.{◌≡◌, ◌≤◌, IfOk, length};

use crate::crews::Crew;
use crate::hosting::{file_of_rooms, host_rooms, rooms_to_host};
use crate::losses::check_losses;
use crate::ports::{limits_of, listener_at, port_of, unserved};
use crate::reading::RequestReader;
use crate::workers::{Handler, ServerEngine, Shared, Worker, workers_of};
use mx_admin::{Desk, DeskThread, Failures, RoomDesk};
use mx_directory::{
    RowFile, RowFiles, ServerError, ServerFiles, StartError, WatchedKeeper, open_directory,
};
use mx_engine::{Engine, OpenGate};
use mx_http::{Announcer, Limits, ListenerHandle, Responders, ServeError, ServerRuntime, serve_on};
use mx_ident::ServerName;
use mx_keeper::{BookRow, Keeper, MOST_PLACES, ShardCount, ShardRow};
use mx_line_queue::{LineOutput, LineSender};
use mx_name_grammar::is_in_grammar;
use mx_options::{SeatCount, ServeOptions};
use mx_pdu::PresenceVerifier;
use mx_room::Moment;
use mx_watch::{
    AdminView, FileWatch, RoomNotices, RoomWatch, ServerTold, start_admin, start_file_watch,
    start_room_watch,
};
use mx_wire::{WireCall, WireServer};
use mx_world::{OpenError, World};
use sqlite::Alter;
use std::alloc::{AllocError, AllocGlobal, Global};
use std::io::{self, Write};
use std::net::TcpListener;
use std::sync::{Arc, Wait};
use std::time::Clock;

/// Opens the server's directory, hosts the rooms of its file of rooms, binds its port, starts its threads, says so in a line
/// on `out`, and then on `lines` where its files are, and answers requests: for good, or until what keeps rows has failed or
/// a file of rows is lost, where it is to end then. Where a room is not hosted, `lines` are told what its line is answered,
/// where a loss is accepted, what is lost, and where no server can have its name, that. A thread of its own looks after the
/// files, each second, and where it is asked for, another one shows at a port of its own how the server is. Who reads the lines
/// holds nothing of this up.
///
/// `Storage` where the directory was made for another name or number of shards, where a file of rows can't be opened or does
/// not read, where one is missing or empty beside one with rows, where there are more than are asked for, where SQLite's log
/// beside one is damaged, one has fewer rows than it had, or replies call events kept that are in no file, unless such a loss
/// is accepted, and at the end of a server that was to end. `NotHosted` where a line hosts no room.
/// `Thread` where a thread can't be started, or has no event loop. `ReadOrWrite` where the directory can't be made, the
/// file of rooms not read, the port not bound, or the line on `out` not written. `Memory` where no memory is left.
pub fn serve<R: ServerRuntime + 'static, W: Write>(
    rt: &R,
    host: &HostRuntime,
    options: ServeOptions,
    out: &mut W,
    told: ServerTold,
) -> Result<(), StartError> {
    let ServerTold {
        lines,
        log,
        failures,
    } = told;
    let mut err = LineOutput::new(rt, rt.alloc(), &lines);
    warn_of_name(&options.name, &mut err);
    let ServerFiles {
        shards,
        books,
        is_moved,
        files,
        losses,
    } = files_of(rt, host, &options)?;
    tell_losses(&losses, &mut err);
    if is_moved {
        let _ = writeln!(err, "{}: brought to the second layout", options.data);
    }
    let watch = watch_of(rt, host, &options, files, &lines)?;
    let seats = Crew::of(options.threads).seats();
    let oversight = Oversight {
        watch,
        desk: Desk::new(rt.alloc(), seats, lines.another()?, log)?,
        rooms: RoomDesk::new(rt.alloc())?,
        lines: lines.another()?,
        failures,
    };
    let rooms = rooms_to_host(host, &options)?;
    let rows = StoredRows {
        shards,
        books,
        oversight,
    };
    serve_rows(rt, rows, &rooms, options, out, &mut err)
}

// Warns of a name that no server can have.
fn warn_of_name<E: Write>(name: &ServerName, err: &mut E) {
    if !is_in_grammar(name) {
        let _ = writeln!(
            err,
            "warning: {}: no server has such a name, by the Matrix specification",
            name.as_str()
        );
    }
}

// Who looks after the files, from now on.
fn watch_of<R: ServerRuntime + 'static>(
    rt: &R,
    host: &HostRuntime,
    options: &ServeOptions,
    files: Vec<RowFile>,
    lines: &LineSender,
) -> Result<Arc<FileWatch>, StartError> {
    let alloc = rt.alloc();
    let files = RowFiles {
        files,
        lines: lines.another()?,
        stop_on_failure: options.stop_on_storage,
    };
    let watch = FileWatch::new(alloc, host, files, &options.data)?;
    let watch = Arc::new(alloc, watch)?;
    start_file_watch(rt, Arc::try_clone(&watch)?)?;
    Ok(watch)
}

// Tells what is lost, where that is accepted, a line each.
fn tell_losses<E: Write>(losses: &[String], err: &mut E) {
    for loss in losses {
        let _ = writeln!(err, "{loss}");
    }
}

// The files of the server's directory.
fn files_of<R: ServerRuntime>(
    rt: &R,
    host: &HostRuntime,
    options: &ServeOptions,
) -> Result<ServerFiles, StartError>
    ensures some_shard { IfOk result (λ files. 1 ≤ length files.shards.items) }
    ensures few_shards { IfOk result (λ files. length files.shards.items ≤ MOST_PLACES) }
    ensures some_book { IfOk result (λ files. 1 ≤ length files.books.items) }
    ensures few_books { IfOk result (λ files. length files.books.items ≤ MOST_PLACES) }
{
    let name = options.name.as_str();
    let is_accepted = options.accept_loss;
    open_directory(rt, host, &options.data, name, options.shards, is_accepted)
}

// Who looks after the files of a server, where its threads tell what they do, where its rooms are asked for, who is told of
// them, and the files that failed.
#[derive(Drop)]
struct Oversight {
    watch: Arc<FileWatch>,
    desk: Desk,
    rooms: RoomDesk,
    lines: LineSender,
    failures: Failures,
}

// The rows of a server, and who looks after it. For a store that is not known the proofs are found.
#[derive(Drop)]
struct StoredRows<S: Alter + Drop + Send> {
    shards: Vec<WatchedKeeper<S, ShardRow>>,
    books: Vec<WatchedKeeper<S, BookRow>>,
    oversight: Oversight,
}

// Serves over rows, once the rooms of these lines are hosted.
fn serve_rows<S, R, W: Write, E: Write>(
    rt: &R,
    rows: StoredRows<S>,
    rooms: &[u8],
    options: ServeOptions,
    out: &mut W,
    err: &mut E,
) -> Result<(), StartError>
where
    S: Alter + Drop + Send + 'static,
    R: ServerRuntime + 'static,
    requires some_shard { 1 ≤ length rows.shards.items }
    requires few_shards { length rows.shards.items ≤ MOST_PLACES }
    requires some_book { 1 ≤ length rows.books.items }
    requires few_books { length rows.books.items ≤ MOST_PLACES }
{
    let StoredRows {
        shards,
        books,
        oversight,
    } = rows;
    let alloc = rt.alloc();
    let count = books.len();
    let mut server = match World::reopen(alloc, shards, books) {
        Ok(server) => server,
        Err(error) => return Err(not_reopened(alloc, &options.data, error)),
    };
    let is_accepted = options.accept_loss;
    let losses = check_losses(alloc, &server, count, &options.data, is_accepted)?;
    tell_losses(&losses, err);
    oversight.watch.check_counts(rt, is_accepted, err)?;
    host_rooms(alloc, &mut server, rooms, file_of_rooms(&options), err)?;
    listen(rt, server, oversight, options, out, err)
}

// Rows that are no server's, or for which no memory is left.
fn not_reopened(alloc: Global, data: &str, error: OpenError) -> StartError {
    match error {
        OpenError::Memory => StartError::from(ServerError::Memory),
        OpenError::Shard(_) | OpenError::Book(_) => {
            let cause = "no server with so many shards has these rows";
            StartError::about(alloc, ServerError::Storage, data, &cause)
        }
    }
}

// What is said once connections are taken in.
#[derive(Drop)]
struct Opening<'a, W, E> {
    out: &'a mut W,
    err: &'a mut E,
    port: u16,
    data: String,
    watch: Arc<FileWatch>,
}

impl<'a, W: Write, E: Write> Announcer for Opening<'a, W, E> {
    fn announce(&mut self, handle: ListenerHandle) -> io::Result<()> {
        self.watch.begin(handle);
        let port = self.port;
        writeln!(self.out, "listening 127.0.0.1:{port}")?;
        self.out.flush()?;
        let data = self.data.as_str();
        let _ = writeln!(self.err, "serving {data}");
        Ok(())
    }
}

// Serves at the port.
fn listen<K, L, R, W: Write, E: Write>(
    rt: &R,
    server: World<K, L>,
    oversight: Oversight,
    options: ServeOptions,
    out: &mut W,
    err: &mut E,
) -> Result<(), StartError>
where
    K: Keeper<Row = ShardRow> + Send + 'static,
    L: Keeper<Row = BookRow> + Send + 'static,
    R: ServerRuntime + 'static,
{
    let alloc = rt.alloc();
    let listener = listener_at(rt, options.port)?;
    let port = port_of(alloc, &listener)?;
    let limits = limits_of(&options);
    let crew = Crew::of(options.threads);
    let reader = reader_of(alloc, &options)?;
    let watch = Arc::try_clone(&oversight.watch)?;
    let mut workers = workers(rt, server, crew, options.name, watch.files()?)?;
    if let Some(worker) = workers.pop() {
        count_rooms(rt, worker, options.shards, &oversight)?;
    }
    let answerers = Answerers {
        reader,
        desks: desks_of(alloc, &oversight.desk, workers.len())?,
        workers,
        crew,
    };
    if let Some(port) = options.admin {
        show(rt, port, oversight)?;
    }
    let mut opening = Opening {
        out,
        err,
        port,
        data: options.data,
        watch,
    };
    let served = serve_by(rt, &listener, answerers, limits, &mut opening);
    match served {
        Ok(()) => Err(StartError::from(ServerError::Storage)),
        Err(error) => Err(unserved(alloc, &error)),
    }
}

// What reads the requests of a server with these options.
fn reader_of(alloc: Global, options: &ServeOptions) -> Result<Arc<RequestReader>, AllocError> {
    let reader = RequestReader {
        server: WireServer::new(alloc, options.name.clone()?)?,
        shards: options.shards,
    };
    let reader = Arc::new(alloc, reader)?;
    Ok(reader)
}

// Counts the rooms through a worker, from now on.
fn count_rooms<K, L, R>(
    rt: &R,
    worker: Worker<K, L>,
    shards: ShardCount,
    oversight: &Oversight,
) -> Result<(), StartError>
where
    K: Keeper<Row = ShardRow> + Send + 'static,
    L: Keeper<Row = BookRow> + Send + 'static,
    R: ServerRuntime + 'static,
{
    let rooms = oversight.rooms.another()?;
    let lines = oversight.lines.another()?;
    let watch = RoomWatch {
        rooms: worker,
        shards,
        notices: RoomNotices::new(rt.alloc(), rooms, lines),
    };
    start_room_watch(rt, watch)
}

// Shows an operator at a port how the server is.
fn show<R: ServerRuntime + 'static>(
    rt: &R,
    port: u16,
    oversight: Oversight,
) -> Result<(), StartError> {
    let view = AdminView {
        desk: oversight.desk,
        rooms: oversight.rooms,
        watch: oversight.watch,
        failures: oversight.failures,
        started: seconds(rt),
    };
    start_admin(rt, listener_at(rt, port)?, view)
}

// A desk for each of so many threads.
fn desks_of(alloc: Global, desk: &Desk, threads: usize) -> Result<Vec<DeskThread>, AllocError> {
    let mut desks = Vec::new(alloc);
    for number in 0..threads {
        desks.push(desk.thread(number)?)?;
    }
    Ok(desks)
}

// The moment of a clock, in seconds since 1970; 0 where it can't be read.
fn seconds<C: Clock>(clock: &C) -> u64 {
    match clock.since_1970() {
        Ok(time) => time.as_secs(),
        Err(_error) => 0,
    }
}

// What answers requests: who reads them, and a worker with its desk for each event loop and for each thread beside them.
#[derive(Drop)]
struct Answerers<K: Keeper<Row = ShardRow>, L: Keeper<Row = BookRow>> {
    reader: Arc<RequestReader>,
    desks: Vec<DeskThread>,
    workers: Vec<Worker<K, L>>,
    crew: Crew,
}

// Serves the connections that come to a listener by these workers, in a thread each.
fn serve_by<K, L, R, T: Announcer>(
    rt: &R,
    listener: &TcpListener,
    answerers: Answerers<K, L>,
    limits: Limits,
    announcer: &mut T,
) -> Result<(), ServeError>
where
    K: Keeper<Row = ShardRow> + Send,
    L: Keeper<Row = BookRow> + Send,
    R: ServerRuntime,
{
    let Answerers {
        reader,
        desks,
        workers,
        crew,
    } = answerers;
    let runtime = *rt;
    let mut loops = Vec::new(rt.alloc());
    let mut threads = Vec::new(rt.alloc());
    for (worker, desk) in workers.into_iter().zip(desks) {
        let mut worker = worker;
        let answer = move |alloc: Global, now: Moment, call: WireCall| {
            worker.answer(&runtime, alloc, now, call)
        };
        let reader = Arc::try_clone(&reader)?;
        let handler = Handler::new(rt.alloc(), reader, desk, runtime, answer);
        if loops.len() < crew.loops() {
            loops.push(handler).map_err(AllocError::from)?;
        } else {
            threads.push(handler).map_err(AllocError::from)?;
        }
    }
    let responders = Responders { loops, threads };
    serve_on(rt, listener, responders, limits, announcer)?;
    Ok(())
}

// The workers of a server.
fn workers<K: Keeper<Row = ShardRow>, L: Keeper<Row = BookRow>, R: Wait + AllocGlobal>(
    rt: &R,
    server: World<K, L>,
    crew: Crew,
    name: ServerName,
    files: Arc<RowFiles>,
) -> Result<Vec<Worker<K, L>>, StartError> {
    let alloc = rt.alloc();
    if !server.none_open() {
        return Err(StartError::from(ServerError::Storage));
    }
    let (engine, seats) = Engine::open(
        rt,
        alloc,
        server,
        PresenceVerifier,
        OpenGate,
        crew.seats(),
    )?;
    let shared = shared_of(alloc, engine, name, files)?;
    Ok(workers_of(alloc, &shared, seats)?)
}

// What all workers share.
fn shared_of<K: Keeper<Row = ShardRow>, L: Keeper<Row = BookRow>>(
    alloc: Global,
    engine: ServerEngine<K, L>,
    name: ServerName,
    files: Arc<RowFiles>,
) -> Result<Arc<Shared<K, L>>, AllocError>
    ensures { IfOk result (λ shared. shared.value.engine ≡ engine) }
{
    let shared = Shared {
        engine,
        name,
        files,
    };
    let shared = Arc::new(alloc, shared)?;
    Ok(shared)
}
