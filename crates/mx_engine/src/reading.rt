// What is read of the rooms of a shard.
ghost use Rattle.std.specs.Prelude.{◌≡◌, IfSome, is_some, length, nat_lt};
ghost use Rattle.std.specs.Fn.{FnOnceReturnsAt};
ghost use Rattle.mx_dock.specs.Dock.{own, number as caller_of_berth};
ghost use Rattle.mx_engine.specs.Views.{AddsNothing};
ghost use Rattle.mx_engine.specs.Berths.{AreBerthsAt, IsBerthAt, caller_of, views_of};
ghost use Rattle.mx_engine.specs.Calls.{IsRead};
ghost use Rattle.mx_engine.specs.Calling.{IsReadTurn};

use crate::docked::{DockedShard, PaddedDock};
use crate::taking::take_at;
use mx_dock::{Berth, Dock};
use mx_keeper::{Keeper, Place, ShardRow};
use mx_room::Room;
use std::sync::Wait;

/// What is read of the rooms of the shard with this number; none where there is no such shard.
pub(crate) fn read_in<R: Wait, K: Keeper<Row = ShardRow>, A, F: FnOnce(&[Room]) -> A + Drop>(
    rt: &R,
    docks: &[PaddedDock<DockedShard<K>>],
    berths: &mut Vec<Berth<DockedShard<K>>>,
    number: usize,
    read: F,
) -> Option<A>
    requires seated { AreBerthsAt docks.now (caller_of berths.old.items) berths.old.items }
    requires callable { F.IsAlwaysCallable read }
    ensures seated { AreBerthsAt docks.now (caller_of berths.old.items) berths.new.items }
    ensures nothing { AddsNothing (views_of berths.old.items) (views_of berths.new.items) }
    ensures read { IfSome result (IsRead (FnOnceReturnsAt F.FnOnce read) (views_of berths.new.items) number) }
    ensures there { is_some result ≡ nat_lt number (length docks.now) }
{
    if number >= docks.len() {
        return None;
    }
    let place = Place::new(number, docks.len());
    let berth = &mut berths[number];
    Some(read_at(rt, place, &docks[number], berth, read))
}

// Takes the shard at this place, reads its rooms, and puts it back.
fn read_at<R: Wait, K: Keeper<Row = ShardRow>, A, F: FnOnce(&[Room]) -> A + Drop>(
    rt: &R,
    place: Place,
    dock: &Dock<DockedShard<K>>,
    berth: &mut Berth<DockedShard<K>>,
    read: F,
) -> A
    requires berth { IsBerthAt place dock.now (caller_of_berth berth.old) berth.old }
    requires callable { F.IsAlwaysCallable read }
    ensures berth { IsBerthAt place dock.now (caller_of_berth berth.old) berth.new }
    ensures turn { IsReadTurn (FnOnceReturnsAt F.FnOnce read) (own berth.old) (own berth.new) result }
{
    let docked = take_at(rt, place, dock, berth);
    let told = read(docked.shard.rooms());
    dock.put(rt, berth, docked);
    told
}
