// What the words of the command line ask for.
use crate::words::{
    VERSION, audit_words, check_words, log_words, migrate_words, replay_words, serve_words,
};
use clap::error::ErrorKind;
use clap::{ArgMatches, Error};
use mx_ident::{EventId, IdError, RoomId, ServerName};
use mx_keeper::ShardCount;
use mx_options::{
    AskedOf, AuditOptions, AuditQuestion, AuditSource, CheckOptions, EventQuestion, LogOptions,
    MigrateOptions, ReplayOptions, SeatCount, ServeOptions, ServerLog,
};
use mx_records::{LevelFilter, RecordForm};
use std::alloc::{AllocError, Global};

/// What the program is asked to do, and the file that is read in place of standard input, if one is named.
#[derive(Debug, Drop)]
pub struct Invocation {
    pub command: Command,
    pub input: Option<String>,
}

/// What the program is asked to do.
#[derive(Debug, Drop)]
pub enum Command {
    // One event from the input, to its id.
    Check(CheckOptions),
    // A log from the input, to the answers of a server.
    Replay(ReplayOptions),
    // A server on loopback.
    Serve(ServeOptions),
    // What became of the events of a room, and why.
    Audit(AuditOptions),
    // To bring the files of a directory to the current layout.
    Migrate(MigrateOptions),
    // Events from the input, to a log of them.
    Log(LogOptions),
    // This text of the program's version.
    Version(String),
}

/// Why the words ask for nothing.
#[derive(Debug, Drop)]
pub enum CommandLineError {
    Memory,
    // What to print instead.
    Misused(String),
}

impl From<AllocError> for CommandLineError {
    ghost use Rattle.std.specs.Prelude.{◌≡◌};
    ghost use Rattle.mx_command_line.specs.declared.commands.CommandLineError.TheVariants.{Memory};

    ghost from_gives = { λ _ e. e ≡ Memory };

    fn from(_refused: AllocError) -> CommandLineError {
        CommandLineError::Memory
    }
}

fn refusal(alloc: Global, error: &Error) -> Result<String, AllocError> {
    format!(in alloc; "{error}")
}

/// What the words ask for. The first is the program's name.
///
/// `Misused`, with the text to print, where they ask for nothing or for help; `Memory` where no memory is left.
pub fn parse(alloc: Global, words: &[String]) -> Result<Invocation, CommandLineError> {
    let program = clap::Command::new(alloc, "mx_federd")
        .about("A Matrix federation room server")
        .version(VERSION)
        .subcommand_required(true)
        .subcommands(subcommands(alloc)?)?;
    match program.try_get_matches_from(words) {
        Ok(matches) => {
            let command = chosen(alloc, &matches)?;
            let input = named_file(alloc, &matches)?;
            Ok(Invocation { command, input })
        }
        Err(error) if error.kind() == ErrorKind::OutOfMemory => Err(CommandLineError::Memory),
        Err(error) if error.kind() == ErrorKind::DisplayVersion => {
            Ok(Invocation {
                command: Command::Version(refusal(alloc, &error)?),
                input: None,
            })
        }
        Err(error) => Err(CommandLineError::Misused(refusal(alloc, &error)?)),
    }
}

fn subcommands<'a>(alloc: Global) -> Result<Vec<clap::Command<'a>>, AllocError> {
    let mut subcommands = Vec::with_capacity(alloc, 6)?;
    subcommands.push(check_words(alloc)?)?;
    subcommands.push(replay_words(alloc)?)?;
    subcommands.push(serve_words(alloc)?)?;
    subcommands.push(audit_words(alloc)?)?;
    subcommands.push(migrate_words(alloc)?)?;
    subcommands.push(log_words(alloc)?)?;
    Ok(subcommands)
}

// The file that a subcommand is to read.
fn named_file(alloc: Global, matches: &ArgMatches) -> Result<Option<String>, AllocError> {
    match matches.subcommand() {
        Some(("check" | "replay" | "audit" | "log", given)) => text_of(alloc, given, "file"),
        _ => Ok(None),
    }
}

fn chosen(alloc: Global, matches: &ArgMatches) -> Result<Command, CommandLineError> {
    match matches.subcommand() {
        Some(("check", given)) => Ok(Command::Check(check_options_of(given))),
        Some(("replay", given)) => replay_of(alloc, given),
        Some(("serve", given)) => serve_of(alloc, given),
        Some(("audit", given)) => audit_of(alloc, given),
        Some(("migrate", given)) => migrate_of(alloc, given),
        Some(("log", given)) => log_options_of(alloc, given),
        _ => misused(alloc, "no subcommand\n"),
    }
}

fn check_options_of(given: &ArgMatches) -> CheckOptions {
    CheckOptions {
        explains: given.get_flag("explain"),
        is_strict: given.get_flag("strict"),
    }
}

// `replay`, where the name is a server name.
fn replay_of(alloc: Global, given: &ArgMatches) -> Result<Command, CommandLineError> {
    let Some(shards) = shards_of(given) else {
        return misused(alloc, "the number of shards is not 1 to 64\n");
    };
    match name_of(alloc, given)? {
        Some(name) => Ok(Command::Replay(ReplayOptions {
            name,
            shards,
            is_strict: given.get_flag("strict"),
        })),
        None => misused(alloc, "--name takes a server name, such as hub.example\n"),
    }
}

// `serve`, where the name is a server name.
fn serve_of(alloc: Global, given: &ArgMatches) -> Result<Command, CommandLineError> {
    let Some(name) = name_of(alloc, given)? else {
        return misused(alloc, "--name takes a server name, such as hub.example\n");
    };
    if given.get_str("data") == Some("") {
        return misused(alloc, "--data takes a directory, whose name is not empty\n");
    }
    if given.get_str("log") == Some("") {
        return misused(alloc, "--log takes a file, whose name is not empty, or -\n");
    }
    match options_of(alloc, given, name)? {
        Some(options) => Ok(Command::Serve(options)),
        None => misused(alloc, "a number is outside its limits\n"),
    }
}

// `audit`, where it is told a room and where its events are.
fn audit_of(alloc: Global, given: &ArgMatches) -> Result<Command, CommandLineError> {
    let Some(room) = room_of(alloc, given)? else {
        return misused(
            alloc,
            "--room takes a room ID, which begins with ! and ends with a server name\n",
        );
    };
    let source = source_of(alloc, given)?;
    let question = question_of(alloc, given)?;
    Ok(Command::Audit(AuditOptions {
        source,
        room,
        question,
    }))
}

// `migrate`, where the directory has a name.
fn migrate_of(alloc: Global, given: &ArgMatches) -> Result<Command, CommandLineError> {
    let Some(shards) = shards_of(given) else {
        return misused(alloc, "the number of shards is not 1 to 64\n");
    };
    match text_of(alloc, given, "data")? {
        Some(data) if !data.is_empty() => Ok(Command::Migrate(MigrateOptions { data, shards })),
        _ => misused(alloc, "--data takes a directory, whose name is not empty\n"),
    }
}

// `log`, where the room is a room id and the origin a server name, if they are told.
fn log_options_of(alloc: Global, given: &ArgMatches) -> Result<Command, CommandLineError> {
    let room = room_of(alloc, given)?;
    if room.is_none() && given.get_str("room").is_some() {
        return misused(
            alloc,
            "--room takes a room ID, which begins with ! and ends with a server name\n",
        );
    }
    let origin = server_of(alloc, given, "origin")?;
    if origin.is_none() && given.get_str("origin").is_some() {
        return misused(alloc, "--origin takes a server name, such as hub.example\n");
    }
    Ok(Command::Log(LogOptions {
        room,
        origin,
        shows_missing: given.get_flag("missing"),
    }))
}

fn room_of(alloc: Global, given: &ArgMatches) -> Result<Option<RoomId>, CommandLineError> {
    let Some(room) = given.get_str("room") else {
        return Ok(None);
    };
    match RoomId::parse(alloc, room) {
        Ok(room) => Ok(Some(room)),
        Err(IdError::Memory) => Err(CommandLineError::Memory),
        Err(IdError::NotAnId(_)) => Ok(None),
    }
}

// Where the events are: in a directory, which excludes a name, or else in a log.
fn source_of(alloc: Global, given: &ArgMatches) -> Result<AuditSource, CommandLineError> {
    if let Some(directory) = text_of(alloc, given, "data")? {
        if directory.is_empty() {
            return misused(alloc, "--data takes a directory, whose name is not empty\n");
        }
        return Ok(AuditSource::Directory(directory));
    }
    let name = name_of(alloc, given)?;
    if name.is_none() && given.get_str("name").is_some() {
        return misused(alloc, "--name takes a server name, such as hub.example\n");
    }
    match shards_of(given) {
        Some(shards) => Ok(AuditSource::Log { name, shards }),
        None => misused(alloc, "the number of shards is not 1 to 64\n"),
    }
}

// What is asked. Of the options that ask, at most one is given, perhaps several times.
fn question_of(alloc: Global, given: &ArgMatches) -> Result<AuditQuestion, CommandLineError> {
    if given.get_flag("dot") {
        return Ok(AuditQuestion::Picture);
    }
    if given.get_flag("html") {
        return Ok(AuditQuestion::Page);
    }
    let mut questions = Vec::new(alloc);
    for (option, asked) in &QUESTIONS {
        for id in events_of(alloc, given, option)? {
            add_question(&mut questions, *asked, id)?;
        }
    }
    for id in events_of(alloc, given, "at")? {
        add_all(&mut questions, &id)?;
    }
    if questions.is_empty() {
        return Ok(AuditQuestion::Events);
    }
    Ok(AuditQuestion::OfEvents(questions))
}

// The options that ask one thing of events.
const QUESTIONS: [(&str, AskedOf); 4] = [
    ("event", AskedOf::Event),
    ("state-before", AskedOf::StateBefore),
    ("state-after", AskedOf::StateAfter),
    ("resolution", AskedOf::Resolution),
];

// What `--at` asks of an event: all.
const ALL_OF_AN_EVENT: [AskedOf; 4] = [
    AskedOf::Event,
    AskedOf::StateBefore,
    AskedOf::Resolution,
    AskedOf::StateAfter,
];

fn add_all(questions: &mut Vec<EventQuestion>, id: &EventId) -> Result<(), AllocError> {
    for asked in &ALL_OF_AN_EVENT {
        add_question(questions, *asked, id.clone()?)?;
    }
    Ok(())
}

fn add_question(
    questions: &mut Vec<EventQuestion>,
    asked: AskedOf,
    event: EventId,
) -> Result<(), AllocError> {
    questions.push(EventQuestion { asked, event })?;
    Ok(())
}

// The event IDs at an option. `Misused` where one that is given is none.
fn events_of(
    alloc: Global,
    given: &ArgMatches,
    option: &str,
) -> Result<Vec<EventId>, CommandLineError> {
    let mut ids = Vec::new(alloc);
    for text in given.get_strs(option).unwrap_or_default() {
        let id = event_of(alloc, option, text)?;
        ids.push(id).map_err(AllocError::from)?;
    }
    Ok(ids)
}

fn event_of(alloc: Global, option: &str, text: &str) -> Result<EventId, CommandLineError> {
    match EventId::parse(alloc, text) {
        Ok(id) => Ok(id),
        Err(IdError::Memory) => Err(CommandLineError::Memory),
        Err(IdError::NotAnId(_)) => Err(CommandLineError::Misused(format!(in alloc;
            "--{option} {text} is no event ID, which begins with $\n"
        )?)),
    }
}

fn options_of(
    alloc: Global,
    given: &ArgMatches,
    name: ServerName,
) -> Result<Option<ServeOptions>, AllocError> {
    let (Some(port), Some(threads), Some(shards), Some(connections), Some(memory)) = (
        given.get_one::<u16>("port"),
        given.get_one::<u32>("threads").and_then(SeatCount::of),
        shards_of(given),
        given.get_one::<usize>("connections"),
        given.get_one::<usize>("memory"),
    ) else {
        return Ok(None);
    };
    let Some(data) = text_of(alloc, given, "data")? else {
        return Ok(None);
    };
    let rooms = text_of(alloc, given, "rooms")?;
    Ok(Some(ServeOptions {
        name,
        data,
        port,
        threads,
        shards,
        connections,
        memory,
        rooms,
        stop_on_storage: given.get_flag("stop-on-storage"),
        accept_loss: given.get_flag("accept-loss"),
        log: server_log_of(alloc, given)?,
        admin: given.get_one::<u16>("admin"),
    }))
}

// The log of a server, where one is asked for.
fn server_log_of(alloc: Global, given: &ArgMatches) -> Result<Option<ServerLog>, AllocError> {
    let Some(file) = text_of(alloc, given, "log")? else {
        return Ok(None);
    };
    let level = match given.get_str("log-level") {
        Some("error") => LevelFilter::Error,
        Some("warn") => LevelFilter::Warn,
        _ => LevelFilter::Info,
    };
    let form = match given.get_str("log-format") {
        Some("json") => RecordForm::Json,
        _ => RecordForm::Text,
    };
    Ok(Some(ServerLog {
        file: if file.as_str() == "-" {
            None
        } else {
            Some(file)
        },
        form,
        level,
    }))
}

fn text_of(alloc: Global, given: &ArgMatches, word: &str) -> Result<Option<String>, AllocError> {
    match given.get_str(word) {
        Some(text) => Ok(Some(String::from_str(alloc, text)?)),
        None => Ok(None),
    }
}

// The name, where it is a server name.
fn name_of(alloc: Global, given: &ArgMatches) -> Result<Option<ServerName>, CommandLineError> {
    server_of(alloc, given, "name")
}

// The server name at a word, where it is one.
fn server_of(
    alloc: Global,
    given: &ArgMatches,
    word: &str,
) -> Result<Option<ServerName>, CommandLineError> {
    let Some(name) = given.get_str(word) else {
        return Ok(None);
    };
    match ServerName::parse(alloc, name) {
        Ok(name) => Ok(Some(name)),
        Err(IdError::Memory) => Err(CommandLineError::Memory),
        Err(IdError::NotAnId(_)) => Ok(None),
    }
}

fn shards_of(given: &ArgMatches) -> Option<ShardCount> {
    let count = given.get_one::<usize>("shards")?;
    ShardCount::of(count)
}

fn misused<T>(alloc: Global, text: &str) -> Result<T, CommandLineError> {
    let text = String::from_str(alloc, text)?;
    Err(CommandLineError::Misused(text))
}
