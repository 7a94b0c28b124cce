// The events that replies call kept and that no shard has.
ghost use Rattle.std.specs.Prelude.{◌≡◌, ◌++◌, ◌∷◌, [], codes, get_or, option_map, IfOk, OnOk};
ghost use Rattle.std.specs.List.{list_any};
ghost use Rattle.serde_json.specs.Data.{object, member, no_members};
ghost use Rattle.serde_json.specs.View.{view, members_view};
ghost use Rattle.mx_redact.specs.Fields.{field, is_none_or};
ghost use Rattle.mx_shard.specs.Journal.{has_id};
ghost use Rattle.mx_world.specs.Losses as definition;
ghost use Rattle.mx_world.specs.Losses.{not_held};
ghost use Rattle.mx_world.specs.Worlds.{shard_journals, book_journals};

use mx_book::Book;
use mx_ident::{EventId, IdError};
use mx_keeper::{BookRow, Keeper, Reply, ShardRow};
use mx_redact::field;
use mx_shard::Shard;
use serde_json::{Map, Value};
use std::alloc::{AllocError, Global};

/// The events that the kept replies of the book with this number call kept and that no shard has. Of a book that there
/// is not, there are none.
pub(crate) fn lost_of_book<K: Keeper<Row = ShardRow>, L: Keeper<Row = BookRow>>(
    alloc: Global,
    shards: &[Shard<K>],
    books: &[Book<L>],
    number: usize,
) -> Result<Vec<EventId>, AllocError>
    ensures { IfOk result (λ lost. lost.items ≡ not_held (shard_journals shards.now) (definition.ids_told (get_or (book_journals books.now) number []))) }
{
    match books.get(number) {
        Some(book) => lost_by(alloc, shards, book.replies()),
        None => Ok(Vec::new(alloc)),
    }
}

// The events that these replies call kept and that no shard has.
fn lost_by<K: Keeper<Row = ShardRow>>(
    alloc: Global,
    shards: &[Shard<K>],
    replies: &[Reply],
) -> Result<Vec<EventId>, AllocError>
    ensures { IfOk result (λ lost. lost.items ≡ not_held (shard_journals shards.now) (definition.ids_among replies.now)) }
{
    let mut lost = Vec::new(alloc);
    for reply in replies {
        add_lost_by(alloc, shards, reply, &mut lost)?;
    }
    Ok(lost)
}

fn add_lost_by<K: Keeper<Row = ShardRow>>(
    alloc: Global,
    shards: &[Shard<K>],
    reply: &Reply,
    lost: &mut Vec<EventId>,
) -> Result<(), AllocError>
    ensures { OnOk result (lost.new.items ≡ lost.old.items ++ not_held (shard_journals shards.now) (definition.ids_of reply.now)) }
{
    match Value::from_str(alloc, reply.as_str()) {
        Ok(value) => add_lost_in(alloc, shards, &value, lost),
        Err(error) => {
            if error.is_memory() {
                Err(AllocError)
            } else {
                Ok(())
            }
        }
    }
}

fn add_lost_in<K: Keeper<Row = ShardRow>>(
    alloc: Global,
    shards: &[Shard<K>],
    reply: &Value,
    lost: &mut Vec<EventId>,
) -> Result<(), AllocError>
    ensures { OnOk result (lost.new.items ≡ lost.old.items ++ not_held (shard_journals shards.now) (definition.ids_under (definition.answers_in (view reply.now)))) }
{
    match answers_in(reply) {
        Some(answers) => add_lost_among(alloc, shards, answers, lost),
        None => Ok(()),
    }
}

// What is told of each event.
fn answers_in(reply: &Value) -> Option<&Map<String, Value>>
    ensures { option_map (λ answers. members_view answers.now.entries) result ≡ definition.answers_in (view reply.now) }
{
    match reply {
        Value::Object(members) => field(members, "pdus").and_then(Value::as_object),
        _ => None,
    }
}

fn add_lost_among<K: Keeper<Row = ShardRow>>(
    alloc: Global,
    shards: &[Shard<K>],
    answers: &Map<String, Value>,
    lost: &mut Vec<EventId>,
) -> Result<(), AllocError>
    ensures { OnOk result (lost.new.items ≡ lost.old.items ++ not_held (shard_journals shards.now) (definition.kept_ids (members_view answers.now.entries))) }
{
    for (id, answer) in answers.iter() {
        add_if_lost(alloc, shards, id, answer, lost)?;
    }
    Ok(())
}

// Adds an event of which this is told, where it was kept and no shard has it.
fn add_if_lost<K: Keeper<Row = ShardRow>>(
    alloc: Global,
    shards: &[Shard<K>],
    id: &str,
    answer: &Value,
    lost: &mut Vec<EventId>,
) -> Result<(), AllocError>
    ensures { OnOk result (lost.new.items ≡ lost.old.items ++ not_held (shard_journals shards.now) (definition.kept_ids (member id.now (view answer.now) no_members))) }
{
    if !says_kept(answer) {
        return Ok(());
    }
    match EventId::parse(alloc, id) {
        Ok(id) => add_if_unheld(shards, id, lost),
        Err(IdError::NotAnId(_)) => Ok(()),
        Err(IdError::Memory) => Err(AllocError),
    }
}

fn add_if_unheld<K: Keeper<Row = ShardRow>>(
    shards: &[Shard<K>],
    id: EventId,
    lost: &mut Vec<EventId>,
) -> Result<(), AllocError>
    ensures { OnOk result (lost.new.items ≡ lost.old.items ++ not_held (shard_journals shards.now) (id ∷ [])) }
{
    if is_held(shards, &id) {
        return Ok(());
    }
    lost.push(id)?;
    Ok(())
}

// Whether some shard has an event with this id.
fn is_held<K: Keeper<Row = ShardRow>>(shards: &[Shard<K>], id: &EventId) -> bool
    ensures { result ≡ list_any (λ shard. has_id shard.journal id.now) shards.now }
{
    shards.iter().any(|shard| shard.holds(id))
}

// Whether what is told of an event says that it was kept: no error, or that it was rejected.
fn says_kept(answer: &Value) -> bool
    ensures { result ≡ definition.says_kept (view answer.now) }
{
    match answer {
        Value::Object(members) => has_no_other_error(members),
        _ => false,
    }
}

fn has_no_other_error(members: &Map<String, Value>) -> bool
    ensures { result ≡ is_none_or definition.is_rejection (field (codes "error") (object (members_view members.now.entries))) }
{
    match field(members, "error") {
        Some(error) => is_rejection(error),
        None => true,
    }
}

fn is_rejection(error: &Value) -> bool
    ensures { result ≡ definition.is_rejection (view error.now) }
{
    match error.as_str() {
        Some(text) => text.as_bytes().starts_with(b"rejected: "),
        None => false,
    }
}
