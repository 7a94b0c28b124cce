// Queries by an event's id alone, which are put to each shard.
ghost use Rattle.std.specs.Prelude.{◌≡◌, ◌||◌, None, IfOk};
ghost use Rattle.mx_room.specs.Queries.{room_named};
ghost use Rattle.mx_shard.specs.LoneRoom.{to_ask};
ghost use Rattle.mx_engine.specs.Calls.{IsShownBy};
ghost use Rattle.mx_engine.specs.Calling.{IsAskTurn, found_in, is_storage};
ghost use Rattle.mx_dock.specs.Dock.{own};
ghost use Rattle.mx_engine.specs.Berths.{AddNothing, IsBerthAt, views_of};
ghost use Rattle.mx_engine.specs.Turns.{AreAtShards, StayAtShards};

use crate::calls::{Question, ShardCall, ShardTurns};
use crate::docked::DockedShard;
use crate::gates::Gate;
use mx_dock::{Berth, Dock};
use mx_keeper::{CallError, Keeper, Place, ShardRow};
use mx_room::Denied;
use mx_shard::Answer;
use std::sync::Wait;

impl<R: Wait, K: Keeper<Row = ShardRow>, G: Gate> ShardTurns<'_, R, K, G> {
    /// What a room of some shard shows. The shards are asked in turn until one shows it. One that is refused for storage
    /// does not end this: it is answered so only where no other one shows it.
    pub(crate) fn ask_each(
        &self,
        berths: &mut Vec<Berth<DockedShard<K>>>,
        question: &Question<'_>,
    ) -> Result<Answer, CallError>
        requires seated { AreAtShards self.now berths.old.items }
        requires alone { room_named question.now.query.now ≡ None }
        ensures berths { StayAtShards self.now berths.old.items berths.new.items }
        ensures nothing { AddNothing berths.old.items berths.new.items }
        ensures shown { IfOk result
            (IsShownBy (to_ask question.now.origin.now question.now.moment question.now.query.now)
            (views_of berths.new.items)) }
    {
        let mut is_refused = false;
        for number in 0..self.docks.len() {
            let place = Place::new(number, self.docks.len());
            let berth = &mut berths[number];
            let dock = &self.docks[number];
            let asked = self.ask_one(place, dock, berth, question);
            is_refused = is_refused_by_now(&asked, is_refused);
            if let Some(answer) = found(asked)? {
                return Ok(answer);
            }
        }
        if is_refused {
            return Err(CallError::Storage);
        }
        Ok(Answer::ToAsked(Err(Denied::NotFound)))
    }

    // What a room of the shard at this place shows, if one shows it.
    fn ask_one(
        &self,
        place: Place,
        dock: &Dock<DockedShard<K>>,
        berth: &mut Berth<DockedShard<K>>,
        question: &Question<'_>,
    ) -> Result<Option<Answer>, CallError>
        requires berth { IsBerthAt place dock.now self.now.caller berth.old }
        requires alone { room_named question.now.query.now ≡ None }
        ensures berth { IsBerthAt place dock.now self.now.caller berth.new }
        ensures turn { IsAskTurn (to_ask question.now.origin.now question.now.moment question.now.query.now)
            (own berth.old) (own berth.new) result }
    {
        let call = ShardCall::Ask(question);
        let answer = self.call_at(place, dock, berth, &call)?;
        if answer.is_shown() {
            return Ok(Some(answer));
        }
        Ok(None)
    }
}

// Whether this shard was refused for storage, or one before it was.
fn is_refused_by_now(asked: &Result<Option<Answer>, CallError>, before: bool) -> bool
    ensures { result ≡ (is_storage asked.now || before) }
{
    match asked {
        Err(CallError::Storage) => true,
        _ => before,
    }
}

// What a shard shows, if it shows something. One that is refused for storage shows nothing.
fn found(asked: Result<Option<Answer>, CallError>) -> Result<Option<Answer>, CallError>
    ensures { result ≡ found_in asked }
{
    match asked {
        Err(CallError::Storage) => Ok(None),
        _ => asked,
    }
}
