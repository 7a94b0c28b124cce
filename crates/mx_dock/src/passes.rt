// The steps of a pass that is no berth, or that has others joined to it.
ghost use Rattle.std.specs.Prelude.{◌≡◌, true};
ghost use Rattle.crossbeam_queue.specs.Passes.{view, IsPassOf, IsSamePass};
ghost use Rattle.mx_dock.specs.Rule.{first_view, opened, Closes};

use crate::journals::Journaled;
use crate::steps::{Closed, DockRule, Opened};
use crate::views::PassView;
use crate::waiting::Waiting;
use crossbeam_queue::{Pass, RuledArrayQueue};
use std::sync::Wait;
use std::thread;

/// The queue of one slot in which a dock's value lies.
pub(crate) type DockQueue<T> = RuledArrayQueue<T, PassView<<T as Journaled>::Entry>, DockRule<T>>;

/// A pass of that queue.
pub(crate) type DockPass<T> = Pass<T, PassView<<T as Journaled>::Entry>>;

/// Puts the value in for the first time. It may wait.
pub(crate) fn put_first<R: Wait, T: Journaled>(
    rt: &R,
    queue: &DockQueue<T>,
    pass: &mut DockPass<T>,
    value: T,
)
    requires mine { IsPassOf queue.now pass.old }
    requires first { view pass.old ≡ first_view }
    ensures mine { IsSamePass pass.old pass.new }
    ensures put { view pass.new ≡ opened (T.journal value) (T.place value) }
{
    let mut left = value;
    for _ in rt.forever() {
        match queue.try_push_as::<Opened<T>>(pass, left) {
            Ok(()) => return,
            Err(back) => left = back,
        }
        thread::yield_now();
    }
    unreachable!()
}

/// Takes the value for the last time. It waits until the value is in.
pub(crate) fn take_last<R: Wait, T: Journaled>(
    rt: &R,
    queue: &DockQueue<T>,
    waiting: &Waiting,
    pass: &mut DockPass<T>,
) -> T
    requires mine { IsPassOf queue.now pass.old }
    requires live { (view pass.old).is_live ≡ true }
    requires first { (view pass.old).own.number ≡ 1 }
    ensures { Closes T.journal T.caller T.place (view pass.old) result (view pass.new) }
{
    let mut waiter = waiting.begin();
    for _ in rt.forever() {
        waiter.before_look();
        if let Some(value) = queue.try_pop_as::<Closed<T>>(pass) {
            waiter.end();
            return value;
        }
        waiter.pause(rt);
    }
    unreachable!()
}
