// The words that each subcommand takes.
use clap::builder::ValueParser;
use clap::{Arg, ArgAction, ArgGroup};
use mx_keeper::MOST_PLACES;
use std::alloc::{AllocError, Global};

// The program's version, and the layouts of files that it reads. CHANGELOG.md has a part on each version.
pub(crate) const VERSION: &str = "1.0.0\nlayouts of files: 1, 2";

// The file that is read in place of standard input.
fn file_word<'a>(alloc: Global) -> Arg<'a> {
    Arg::new(alloc, "file")
        .value_name("FILE")
        .help("The file that is read in place of standard input")
}

pub(crate) fn check_words<'a>(alloc: Global) -> Result<clap::Command<'a>, AllocError> {
    let explain = flag_word(alloc, "explain").help(
        "Say in a second line which field of a refused event has which fault",
    );
    let strict = flag_word(alloc, "strict").help(
        "End with status 1 where the content hash does not hold",
    );
    let words = vec![in alloc; file_word(alloc), explain, strict]?;
    clap::Command::new(alloc, "check")
        .about(
            "Reads one event, and prints its ID, whether its content hash holds, and its canonical text",
        )
        .after_help("Example: mx_federd check event.json\nPage: docs/LOG.md")
        .args(words)
}

fn name_word<'a>(alloc: Global) -> Arg<'a> {
    text_word(alloc, "name", "SERVER")
        .required(true)
        .help("The name of the server")
}

fn number_word<'a>(alloc: Global, name: &'a str, usual: &'a str, least: u64, most: u64) -> Arg<'a> {
    Arg::new(alloc, name)
        .long(name)
        .value_name("NUMBER")
        .default_value(usual)
        .action(ArgAction::Set)
        .value_parser(ValueParser::unsigned(least, most))
}

fn flag_word<'a>(alloc: Global, name: &'a str) -> Arg<'a> {
    Arg::new(alloc, name).long(name).action(ArgAction::SetTrue)
}

fn shards_word<'a>(alloc: Global) -> Arg<'a> {
    number_word(alloc, "shards", "1", 1, MOST_PLACES as u64)
        .value_name("1-64")
        .help("How many shards hold the rooms; no answer depends on it")
}

pub(crate) fn replay_words<'a>(alloc: Global) -> Result<clap::Command<'a>, AllocError> {
    let strict = flag_word(alloc, "strict").help(
        "End with status 1 at the first bad line, and say its number and fault",
    );
    let words = vec![in alloc;
        file_word(alloc),
        name_word(alloc),
        shards_word(alloc),
        strict,
    ]?;
    clap::Command::new(alloc, "replay")
        .about("Reads a log, and prints what a server answers to each line")
        .after_help("Example: mx_federd replay --name hub.example log.jsonl\nPage: docs/LOG.md")
        .args(words)
}

pub(crate) fn serve_words<'a>(alloc: Global) -> Result<clap::Command<'a>, AllocError> {
    let words = serving_words(alloc)?;
    clap::Command::new(alloc, "serve")
        .about("Answers other servers' requests on 127.0.0.1")
        .after_help(
            "Example: mx_federd serve --name hub.example --data /var/lib/mx_federd --rooms rooms.jsonl\nPage: docs/OPERATION.md",
        )
        .args(words)
}

fn serving_words<'a>(alloc: Global) -> Result<Vec<Arg<'a>>, AllocError> {
    let mut words = hosting_words(alloc)?;
    words.append(&mut bounding_words(alloc)?)?;
    words.append(&mut storing_words(alloc)?)?;
    words.append(&mut watching_words(alloc)?)?;
    Ok(words)
}

// The words that say who is served, over which files and at which port.
fn hosting_words<'a>(alloc: Global) -> Result<Vec<Arg<'a>>, AllocError> {
    let data = text_word(alloc, "data", "DIR").required(true).help(
        "The directory of the server's files, which is made where it is not there",
    );
    let port = number_word(alloc, "port", "8008", 0, 65_535)
        .value_name("PORT")
        .help("The port on 127.0.0.1; 0 takes a free one");
    Ok(vec![in alloc; name_word(alloc), data, port]?)
}

// The words that bound what a server takes of the machine.
fn bounding_words<'a>(alloc: Global) -> Result<Vec<Arg<'a>>, AllocError> {
    let threads = number_word(alloc, "threads", "1", 1, 64)
        .value_name("1-64")
        .help(
            "How many threads read and write connections, more than 30 as 30; as many and three more answer what may have to wait",
        );
    let connections = number_word(alloc, "connections", "16", 1, 256)
        .value_name("1-256")
        .help(
            "How many connections may be open; one more takes the place of the one that has been idle longest, or else the one that has been waited for longest within a request; where none waits for its client, it is closed unanswered",
        );
    let memory = number_word(alloc, "memory", "512", 16, 1_048_576)
        .value_name("MB")
        .help(
            "How many MB (1,000,000 bytes) of requests and replies may be held for clients; past that long ones wait, and who takes nothing for longest is closed",
        );
    Ok(vec![in alloc; threads, shards_word(alloc), connections, memory]?)
}

// The words that say which rooms are hosted at the start, and what a server does where its files fail.
fn storing_words<'a>(alloc: Global) -> Result<Vec<Arg<'a>>, AllocError> {
    let rooms = text_word(alloc, "rooms", "FILE")
        .visible_alias("host")?
        .help("A file of lines of a log, each of which hosts a room at the start");
    let stop = flag_word(alloc, "stop-on-storage").help(
        "End with status 1 once a file of rows has failed or has lost its name, so that a supervisor starts it again",
    );
    let accept = flag_word(alloc, "accept-loss").help(
        "Start although answered rows are lost: events in no file, fewer rows than there were, a damaged write-ahead log; standard error tells which",
    );
    Ok(vec![in alloc; rooms, stop, accept]?)
}

// The words by which an operator sees what a server does: its log, and the port that tells how it is.
fn watching_words<'a>(alloc: Global) -> Result<Vec<Arg<'a>>, AllocError> {
    let log = text_word(alloc, "log", "FILE").help(
        "A file to whose end a line is written for each request that was answered and for what happened; - is standard error",
    );
    let level = choice_word(alloc, "log-level", "info", &LOG_LEVELS).help(
        "The least that a line of the log has to matter",
    );
    let form = choice_word(alloc, "log-format", "text", &LOG_FORMS).help(
        "As what a line of the log is written",
    );
    let admin = Arg::new(alloc, "admin")
        .long("admin")
        .value_name("PORT")
        .action(ArgAction::Set)
        .value_parser(ValueParser::unsigned(1, 65_535))
        .help("A port on 127.0.0.1 that tells how the server is, at /health and /metrics");
    Ok(vec![in alloc; log, level, form, admin]?)
}

// How much a line of a log may have to matter, and as what it may be written.
const LOG_LEVELS: [&str; 3] = ["info", "warn", "error"];

const LOG_FORMS: [&str; 2] = ["text", "json"];

fn choice_word<'a>(alloc: Global, name: &'a str, usual: &'a str, names: &'a [&'a str]) -> Arg<'a> {
    Arg::new(alloc, name)
        .long(name)
        .default_value(usual)
        .action(ArgAction::Set)
        .value_parser(ValueParser::Names(names))
}

fn text_word<'a>(alloc: Global, name: &'a str, value: &'a str) -> Arg<'a> {
    Arg::new(alloc, name)
        .long(name)
        .value_name(value)
        .action(ArgAction::Set)
}

// An option that is asked of an event, and of several where it is given several times.
fn question_word<'a>(alloc: Global, name: &'a str) -> Arg<'a> {
    Arg::new(alloc, name)
        .long(name)
        .value_name("EVENT_ID")
        .num_args(1..)
        .action(ArgAction::Append)
}

// The options that each ask a question: at most one of them is given.
fn questions<'a>(alloc: Global) -> Result<ArgGroup<'a>, AllocError> {
    ArgGroup::new(alloc, "question")
        .arg("event")?
        .arg("state-before")?
        .arg("state-after")?
        .arg("resolution")?
        .arg("at")?
        .arg("dot")?
        .arg("html")
}

// Where the events are: in the log of a server with a name, or in a directory.
fn named_sources<'a>(alloc: Global) -> Result<ArgGroup<'a>, AllocError> {
    ArgGroup::new(alloc, "named source")
        .arg("name")?
        .arg("data")
}

// Where the events are: in the log in a file, or in a directory.
fn sources<'a>(alloc: Global) -> Result<ArgGroup<'a>, AllocError> {
    ArgGroup::new(alloc, "source").arg("file")?.arg("data")
}

pub(crate) fn audit_words<'a>(alloc: Global) -> Result<clap::Command<'a>, AllocError> {
    let mut words = audited_words(alloc)?;
    words.append(&mut question_words(alloc)?)?;
    clap::Command::new(alloc, "audit")
        .about(
            "Tells of each event of a room why it was accepted, soft failed, rejected or refused, and what its states are",
        )
        .after_help(
            "Example: mx_federd log events.json | mx_federd audit --room '!r:a.example'\nPage: docs/AUDIT.md",
        )
        .args(words)?
        .group(questions(alloc)?)?
        .group(named_sources(alloc)?)?
        .group(sources(alloc)?)
}

// The words that say which room is audited, and where its events are.
fn audited_words<'a>(alloc: Global) -> Result<Vec<Arg<'a>>, AllocError> {
    let name = text_word(alloc, "name", "SERVER").help(
        "The name of the server that answers the log, where a line of it is a request",
    );
    let data = text_word(alloc, "data", "DIR").help(
        "The directory of a server's files, in place of a log; they are only read, and it may be running",
    );
    let room = text_word(alloc, "room", "ROOM_ID")
        .required(true)
        .help("The ID of the room");
    Ok(vec![in alloc; file_word(alloc), name, data, room, shards_word(alloc)]?)
}

// The words that each ask a question.
fn question_words<'a>(alloc: Global) -> Result<Vec<Arg<'a>>, AllocError> {
    let event = question_word(alloc, "event").help("The IDs of the events to tell of");
    let before = question_word(alloc, "state-before").help("IDs of events: the state before each");
    let after = question_word(alloc, "state-after").help("IDs of events: the state after each");
    let resolution = question_word(alloc, "resolution").help(
        "IDs of events: how the states after the prev events of each were resolved",
    );
    let at = question_word(alloc, "at").help(
        "IDs of events: the line of each, the states before and after it, and the resolution",
    );
    let dot = flag_word(alloc, "dot").help("The room as a graph for Graphviz");
    let html = flag_word(alloc, "html").help("The room as a page for a browser");
    Ok(vec![in alloc; event, before, after, resolution, at, dot, html]?)
}

pub(crate) fn log_words<'a>(alloc: Global) -> Result<clap::Command<'a>, AllocError> {
    let room = text_word(alloc, "room", "ROOM_ID").help(
        "The ID of the room, where the events are of several",
    );
    let origin = text_word(alloc, "origin", "SERVER").help(
        "The server that sends the transactions of the log; the usual one is that of the create event's sender",
    );
    let missing = flag_word(alloc, "missing").help(
        "Tell all IDs that are cited and not there, and not the first ten alone",
    );
    let words = vec![in alloc; file_word(alloc), room, origin, missing]?;
    clap::Command::new(alloc, "log")
        .about(
            "Reads events of a room as other servers export them, in any order, and prints a log of them",
        )
        .after_help("Example: mx_federd log events.json > log.jsonl\nPage: docs/LOG.md")
        .args(words)
}

pub(crate) fn migrate_words<'a>(alloc: Global) -> Result<clap::Command<'a>, AllocError> {
    let data = text_word(alloc, "data", "DIR")
        .required(true)
        .help("The directory of the files of a server that is stopped");
    let words = vec![in alloc; data, shards_word(alloc)]?;
    clap::Command::new(alloc, "migrate")
        .about(
            "Brings the file of each shard to the current layout, and prints how many rows it has",
        )
        .after_help("Example: mx_federd migrate --data /var/lib/mx_federd\nPage: docs/FILES.md")
        .args(words)
}
