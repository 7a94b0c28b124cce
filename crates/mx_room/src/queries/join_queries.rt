// Queries for what a join is to be made of.
ghost use Rattle.std.specs.Prelude.{◌≡◌, IfOk, IsTrue, List, OnErr, bytes_eq, is_ok, option_copied, string_bytes, ℕ};
ghost use Rattle.std.specs.List.{list_any};
ghost use Rattle.mx_auth.specs.Rules.{all_are, rules};
ghost use Rattle.mx_auth.specs.Versions.{version_text};
ghost use Rattle.mx_receipt.specs.Receipt.{rows_of};
ghost use Rattle.mx_room.specs.Answers as answers;
ghost use Rattle.mx_room.specs.Queries as definition;

use crate::event_lists::VersionList;
use crate::moments::Moment;
use crate::queries::join_templates::join_template;
use crate::queries::{Denied, QueryReply};
use mx_access::StateInRoom;
use mx_auth::{RoomState, RoomVersion, Rule, judge_own_join};
use mx_ident::{EventId, RoomId, ServerName, UserId};
use mx_receipt::{Timeline, timeline_ids_differ};
use std::alloc::{AllocError, Global};

/// What a join of a user is to be made of, where the user is of the server, the server knows the room's version, and the
/// rules allow the join in the current state.
///
/// Source: the Matrix specification, Server-Server API, "Joining Rooms".
pub(crate) fn join_answer(
    alloc: Global,
    timeline: &Timeline,
    server: &ServerName,
    now: Moment,
    room: &RoomId,
    user: &UserId,
    versions: &VersionList,
) -> Result<Result<QueryReply, Denied>, AllocError>
    ensures reply { IfOk result (λ reply. reply
        ≡ answers.join_answer timeline.now.kept server.now now room.now user.now versions.now) }
    ensures memory { OnErr result (IsTrue (is_ok
        (answers.join_answer timeline.now.kept server.now now room.now user.now versions.now))) }
{
    if user.server() != server.as_str() {
        return Ok(Err(Denied::OtherServer));
    }
    let version = timeline.version();
    if !has_version(version, versions.as_slice()) {
        return Ok(Err(Denied::WrongVersion(version)));
    }
    if let Some(rule) = join_failure(timeline, user) {
        return Ok(Err(Denied::Rule(rule)));
    }
    let template = join_template(alloc, timeline, now, room, user)?;
    Ok(Ok(QueryReply::Template(version, template)))
}

// Whether a version is among those that a server knows.
fn has_version(version: RoomVersion, versions: &[String]) -> bool
    ensures { result ≡ list_any (λ known. bytes_eq (version_text version) (string_bytes known)) versions.now }
{
    versions
        .iter()
        .any(|known| version.text() == known.as_str())
}

// The line of the rules that does not allow a join of the user in the current state, where there is one.
fn join_failure(timeline: &Timeline, user: &UserId) -> Option<Rule>
    ensures { (now : ℕ) (room : List ℕ) → result
        ≡ rules (definition.room_version timeline.now.kept) (definition.join_template timeline.now.kept now room user.now) (definition.current_view timeline.now.kept) }
{
    let state = StateInRoom::current(timeline);
    let follows_create_alone = follows_alone(timeline, state.create_id());
    judge_own_join(timeline.version(), user, follows_create_alone, &state).err()
}

// Whether a join would follow the event with this id alone. No two extremities have one id.
fn follows_alone(timeline: &Timeline, id: Option<&EventId>) -> bool
    ensures { result ≡ all_are (option_copied id.entry)
        (definition.ids_of (rows_of timeline.now.kept) (definition.join_prev_events timeline.now.kept)) }
{
    timeline_ids_differ(timeline);
    let extremities = timeline.extremities();
    match id {
        Some(id) => extremities.len() == 1 && timeline.row(extremities[0]).id == *id,
        None => false,
    }
}
