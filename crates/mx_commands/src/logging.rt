// `log`: events as other servers export them, to a log of one room.
use crate::output::{Failure, write_to};
use mx_export::{FoundRoom, Input, LogError, Missing, RoomLog, log_of_room, read_input, rooms_of};
use mx_ident::RoomId;
use mx_log::read_all;
use mx_options::LogOptions;
use std::alloc::{AllocError, Global};
use std::collections::BTreeMap;
use std::io::{Read, Write};

// How many of many things are told.
const MOST_TOLD: usize = 10;

/// Reads events from the input, and writes a log of those of one room. What was read, let go and left out, and what the
/// events lack, is said on `err`.
///
/// `NoEvents` where none was read, `NoRoom` where none is of the room that was asked for, `SeveralRooms` where none was
/// and they are of several, and `NoCreateEvent` where the room's is not there.
pub fn log<R: Read, W: Write, E: Write>(
    alloc: Global,
    options: &LogOptions,
    input: &mut R,
    out: &mut W,
    err: &mut E,
) -> Result<(), Failure> {
    let bytes = read_all(alloc, input)?;
    let read = read_input(alloc, &bytes)?;
    let rooms = rooms_of(alloc, &read.events)?;
    say(err, &told_input(alloc, &read)?);
    say(err, &told_rooms(alloc, &rooms)?);
    let room = chosen_room(options, &rooms)?;
    let log = match log_of_room(alloc, room, options.origin.as_ref(), &read.events) {
        Ok(log) => log,
        Err(LogError::Memory) => return Err(Failure::Memory),
        Err(LogError::NoCreateEvent) => return Err(Failure::NoCreateEvent),
    };
    say(err, &told_log(alloc, room, &log)?);
    say(
        err,
        &told_missing(alloc, &log.missing, options.shows_missing)?,
    );
    write_to(out, &log.text)
}

// Says a text, where it can be written.
fn say<E: Write>(err: &mut E, text: &str) {
    let _ = err.write_all(text.as_bytes());
}

// The room that was asked for, or the only one.
fn chosen_room<'a>(
    options: &'a LogOptions,
    rooms: &'a BTreeMap<RoomId, FoundRoom>,
) -> Result<&'a RoomId, Failure> {
    if let Some(room) = &options.room {
        return if rooms.contains_key(room) {
            Ok(room)
        } else {
            Err(Failure::NoRoom)
        };
    }
    let Some((room, _)) = rooms.first_key_value() else {
        return Err(Failure::NoEvents);
    };
    if rooms.len() > 1 {
        return Err(Failure::SeveralRooms);
    }
    Ok(room)
}

// What was read, let go and left out.
fn told_input(alloc: Global, read: &Input) -> Result<String, AllocError> {
    let mut text = String::new(alloc);
    let count = read.events.len();
    writeln!(text, "events {count}")?;
    for (key, events) in read.let_go.iter().take(MOST_TOLD) {
        writeln!(text, "let go {key:?} of {events}")?;
    }
    if read.let_go.len() > MOST_TOLD {
        let more = read.let_go.len() - MOST_TOLD;
        writeln!(text, "let go {more} other keys")?;
    }
    for refused in read.refused.iter().take(MOST_TOLD) {
        let place = refused.place;
        let cause = refused.cause;
        writeln!(text, "malformed event {place}: {cause}")?;
    }
    tell_rest(&mut text, "malformed events", read.refused.len())?;
    for number in read.bad_lines.iter().take(MOST_TOLD) {
        writeln!(text, "line {number} is not JSON")?;
    }
    tell_rest(&mut text, "lines that are not JSON", read.bad_lines.len())?;
    if read.others > 0 {
        let others = read.others;
        writeln!(text, "values that are no events {others}")?;
    }
    Ok(text)
}

// How many more things there are than were told.
fn tell_rest(text: &mut String, what: &str, count: usize) -> Result<(), AllocError> {
    if count > MOST_TOLD {
        let more = count - MOST_TOLD;
        writeln!(text, "{more} more {what}")?;
    }
    Ok(())
}

// Of which rooms events were read, and which of them can't be hosted.
fn told_rooms(alloc: Global, rooms: &BTreeMap<RoomId, FoundRoom>) -> Result<String, AllocError> {
    let mut text = String::new(alloc);
    for (id, room) in rooms.iter() {
        let events = room.events;
        write!(text, "room {id} events {events}")?;
        tell_version(&mut text, room)?;
    }
    Ok(text)
}

fn tell_version(text: &mut String, room: &FoundRoom) -> Result<(), AllocError> {
    if !room.has_create {
        return writeln!(text, ", no create event");
    }
    match room.version.as_deref() {
        Some("6") => writeln!(text, ", version 6"),
        Some("7") => writeln!(text, ", version 7"),
        Some(version) => writeln!(text, ", version {version:?} is not hosted: 6 and 7 are"),
        None => writeln!(text, ", no version: 6 and 7 are hosted"),
    }
}

// What stands in a log.
fn told_log(alloc: Global, room: &RoomId, log: &RoomLog) -> Result<String, AllocError> {
    let mut text = String::new(alloc);
    let events = log.events;
    let again = log.again;
    writeln!(text, "log of {room} events {events}, came again {again}")?;
    if log.circular > 0 {
        let circular = log.circular;
        writeln!(
            text,
            "left out {circular} that cite one another in a circle"
        )?;
    }
    Ok(text)
}

// What the events of a log cite and is not there.
fn told_missing(alloc: Global, missing: &Missing, all: bool) -> Result<String, AllocError> {
    let mut text = String::new(alloc);
    if missing.citing == 0 {
        return Ok(text);
    }
    let ids = missing.ids.len();
    let citing = missing.citing;
    writeln!(
        text,
        "partial history: {citing} events cite {ids} that are not there"
    )?;
    let most = if all { ids } else { MOST_TOLD };
    for id in missing.ids.iter().take(most) {
        writeln!(text, "missing {id}")?;
    }
    if ids > most {
        let more = ids - most;
        writeln!(text, "{more} more, which --missing tells")?;
    }
    Ok(text)
}
