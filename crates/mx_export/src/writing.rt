// The lines of the log of a room.
ghost use Rattle.std.specs.Prelude.{◌≡◌, ◌+◌, ◌-◌, ◌/◌, ◌^◌, ◌<◌, ◌++◌, IfOk, OnOk, drop, length, map};
ghost use Rattle.std.specs.List.{join_with_byte};
ghost use Rattle.mx_canon.specs.Canonical.{canonical_text, string_text};
ghost use Rattle.mx_canon.specs.Pieces.{comma_if};
ghost use Rattle.mx_export.specs.RoomLogs as definition;

use crate::exported_events::ExportedEvent;
use mx_canon::{TextBuffer, write_string};
use mx_ident::{RoomId, ServerName};
use std::alloc::{AllocError, Global};

// The most events of a transaction.
const MOST_EVENTS: usize = 50;

// The texts that name a transaction, as JSON has them.
#[derive(Debug, Drop)]
struct TransactionName {
    origin: Vec<u8>,
    number: Vec<u8>,
}

/// The log of a room whose events stand in this order, the create event first.
pub(crate) fn text_of_log(
    alloc: Global,
    origin: &ServerName,
    room: &RoomId,
    create: &ExportedEvent,
    ordered: &[ExportedEvent],
) -> Result<Vec<u8>, AllocError>
    ensures { IfOk result (λ text. text.items ≡ definition.host_text create.now
        ++ definition.transactions_text origin.now room.now (drop 1 ordered.now)) }
{
    let mut out = Vec::new(alloc);
    write_host(&mut out, create)?;
    write_transactions(alloc, &mut out, origin, room, after_first(ordered))?;
    Ok(out)
}

// All but the first.
fn after_first(events: &[ExportedEvent]) -> &[ExportedEvent]
    ensures { result.now ≡ drop 1 events.now }
{
    match events.split_first() {
        Some((_first, rest)) => rest,
        None => events,
    }
}

// Writes the line that hosts a room.
pub(crate) fn write_host(out: &mut Vec<u8>, create: &ExportedEvent) -> Result<(), AllocError>
    ensures { OnOk result (out.new.items ≡ out.old.items ++ definition.host_text create.now) }
{
    out.extend_from_slice(b"{\"event\":")?;
    out.extend_from_slice(create.text())?;
    out.extend_from_slice(b",\"step\":\"host\"}\n")?;
    Ok(())
}

// Writes these events in transactions of a server.
pub(crate) fn write_transactions(
    alloc: Global,
    out: &mut Vec<u8>,
    origin: &ServerName,
    room: &RoomId,
    events: &[ExportedEvent],
) -> Result<(), AllocError>
    ensures { OnOk result (out.new.items ≡ out.old.items ++ definition.transactions_text origin.now room.now events.now) }
{
    let count = (events.len() + (MOST_EVENTS - 1)) / MOST_EVENTS;
    for index in 0..count {
        let name = name_of(alloc, origin, room, index)?;
        write_transaction(alloc, out, &name, part_of(events, index))?;
    }
    Ok(())
}

// The events of the transaction at this index.
fn part_of(events: &[ExportedEvent], index: usize) -> &[ExportedEvent]
    requires { index < (length events.now + (MOST_EVENTS - 1)) / MOST_EVENTS }
    ensures { result.now ≡ definition.part index events.now }
{
    let (_, rest) = events.split_at(MOST_EVENTS * index);
    if rest.len() <= MOST_EVENTS {
        return rest;
    }
    let (part, _) = rest.split_at(MOST_EVENTS);
    part
}

// The name of the transaction at this index.
fn name_of(
    alloc: Global,
    origin: &ServerName,
    room: &RoomId,
    index: usize,
) -> Result<TransactionName, AllocError>
    requires { index < 2 ^ 63 }
    ensures origin { IfOk result (λ name. name.origin.items ≡ string_text origin.now) }
    ensures number { IfOk result (λ name. name.number.items ≡ string_text (definition.number_of room.now index)) }
{
    let count = index + 1;
    let number = format!(in alloc; "{room} {count}")?;
    let origin = quoted(alloc, origin.as_str())?;
    let number = quoted(alloc, &number)?;
    Ok(TransactionName { origin, number })
}

// A text as canonical JSON has it.
fn quoted(alloc: Global, text: &str) -> Result<Vec<u8>, AllocError>
    ensures { IfOk result (λ bytes. bytes.items ≡ string_text text.now) }
{
    let mut buffer = TextBuffer::new(alloc);
    write_string(&mut buffer, text.as_bytes());
    let bytes = buffer.into_bytes()?;
    Ok(bytes)
}

// Writes a transaction: it is opened, each event has its turn, and it is closed.
fn write_transaction(
    alloc: Global,
    out: &mut Vec<u8>,
    name: &TransactionName,
    events: &[ExportedEvent],
) -> Result<(), AllocError>
    ensures { OnOk result (out.new.items
        ≡ out.old.items ++ definition.transaction_text name.now.origin.items name.now.number.items events.now) }
{
    write_open(out, name, events)?;
    let next = step_line(alloc, b"next", name)?;
    for _ in events {
        out.extend_from_slice(&next)?;
    }
    let close = step_line(alloc, b"close", name)?;
    out.extend_from_slice(&close)?;
    Ok(())
}

// Writes the line that opens a transaction.
fn write_open(
    out: &mut Vec<u8>,
    name: &TransactionName,
    events: &[ExportedEvent],
) -> Result<(), AllocError>
    ensures { OnOk result (out.new.items
        ≡ out.old.items ++ definition.open_text name.now.origin.items name.now.number.items events.now) }
{
    out.extend_from_slice(b"{\"origin\":")?;
    out.extend_from_slice(&name.origin)?;
    out.extend_from_slice(b",\"pdus\":[")?;
    write_events(out, events)?;
    out.extend_from_slice(b"],\"step\":\"open\",\"txn\":")?;
    out.extend_from_slice(&name.number)?;
    out.extend_from_slice(b"}\n")?;
    Ok(())
}

// Writes these events, with a comma between each two.
fn write_events(out: &mut Vec<u8>, events: &[ExportedEvent]) -> Result<(), AllocError>
    ensures { OnOk result (out.new.items ≡ out.old.items ++ join_with_byte 44 (map canonical_text events.now)) }
{
    let mut later = false;
    for event in events {
        write_event(out, later, event)?;
        later = true;
    }
    Ok(())
}

// Writes an event, behind a comma where it is a later one.
fn write_event(out: &mut Vec<u8>, later: bool, event: &ExportedEvent) -> Result<(), AllocError>
    ensures { OnOk result (out.new.items ≡ (out.old.items ++ comma_if later) ++ canonical_text event.now) }
{
    if later {
        out.extend_from_slice(b",")?;
    }
    out.extend_from_slice(event.text())?;
    Ok(())
}

// The line of a step of a transaction that names the transaction alone.
fn step_line(alloc: Global, step: &[u8], name: &TransactionName) -> Result<Vec<u8>, AllocError>
    ensures { IfOk result (λ line. line.items ≡ definition.step_text step.now name.now.origin.items name.now.number.items) }
{
    let mut line = Vec::new(alloc);
    line.extend_from_slice(b"{\"origin\":")?;
    line.extend_from_slice(&name.origin)?;
    line.extend_from_slice(b",\"step\":\"")?;
    line.extend_from_slice(step)?;
    line.extend_from_slice(b"\",\"txn\":")?;
    line.extend_from_slice(&name.number)?;
    line.extend_from_slice(b"}\n")?;
    Ok(line)
}
