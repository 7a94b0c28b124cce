// What is taken out of its dock.
ghost use Rattle.mx_dock.specs.Dock.{own, number as caller_of};
ghost use Rattle.mx_engine.specs.Berths.{IsBerthAt};
ghost use Rattle.mx_engine.specs.Calling.{IsHeld};

use crate::docked::Docked;
use mx_dock::{Berth, Dock};
use mx_keeper::Place;
use std::sync::Wait;

/// Takes the shard or the book at this place.
pub(crate) fn take_at<R: Wait, T: Docked>(
    rt: &R,
    place: Place,
    dock: &Dock<T>,
    berth: &mut Berth<T>,
) -> T
    requires { IsBerthAt place dock.now (caller_of berth.old) berth.old }
    ensures { IsHeld T.is_legal T.caller place dock.now (caller_of berth.old) (own berth.old) berth.new
        (T.place_of (T.value_of result)) (T.journal_of (T.value_of result)) }
{
    // They are called for what they ensure.
    place.number();
    place.count();
    let docked = dock.take(rt, berth);
    docked.soundness();
    docked
}
