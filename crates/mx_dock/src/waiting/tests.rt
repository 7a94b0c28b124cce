// What threads that wait, and those that put the value in, read and write in turn. No clause says it. Here one thread
// takes their steps, in each order that matters.
ghost use Rattle.std.specs.Prelude.{◌≡◌, [], false};
ghost use Rattle.mx_dock.specs.Waiting.{is_counted};

use super::{LOOKS_AWAKE, Rest, Stage, Waiter, Waiting};
use crate::{Dock, Journaled};
use std::sync::atomic::Ordering;
use std::test::Fail;

// A value without entries.
#[derive(Drop)]
struct Baton;

impl Journaled for Baton {
    type Entry = u64;

    ghost journal = { λ _. [] };

    ghost caller = { λ entry. entry };

    ghost place = { λ _. 0 };
}

// A thread that has looked so often in vain that it is counted before its next look.
fn after_many_looks(waiting: &Waiting) -> Waiter<'_>
    ensures { is_counted result.stage ≡ false }
{
    Waiter {
        waiting,
        stage: Stage::Awake(LOOKS_AWAKE),
    }
}

// Whether the thread would fall asleep now, after a look that found nothing.
fn would_sleep(waiter: &Waiter<'_>) -> bool {
    match waiter.rest() {
        Rest::Sleep(expected) => calls(waiter.waiting) & 0xffff_ffff == expected as u64,
        Rest::Spin | Rest::Yield => false,
    }
}

fn sleepers(waiting: &Waiting) -> u64 {
    waiting.sleepers.load(Ordering::SeqCst)
}

fn calls(waiting: &Waiting) -> u64 {
    waiting.calls.load(Ordering::SeqCst)
}

// It does not fall asleep.
#[test]
fn put_between_the_last_look_and_the_sleep(rt: HostRuntime) -> Result<(), Fail> {
    let (dock, mut berth) = Dock::open(&rt, rt.alloc(), Baton)?;
    let baton = dock.take(&rt, &mut berth);
    let mut waiter = after_many_looks(&dock.waiting);
    assert_eq!(rt; sleepers(&dock.waiting), 0);
    waiter.before_look();
    assert_eq!(rt; sleepers(&dock.waiting), 1);
    assert!(rt; would_sleep(&waiter));
    dock.put(&rt, &mut berth, baton);
    assert!(rt; !would_sleep(&waiter));
    waiter.pause(&rt);
    waiter.before_look();
    waiter.end();
    assert_eq!(rt; (sleepers(&dock.waiting), calls(&dock.waiting)), (0, 1));
    Ok(())
}

// Nobody is called: the next look finds the value.
#[test]
fn put_before_it_is_counted(rt: HostRuntime) -> Result<(), Fail> {
    let (dock, mut berth) = Dock::open(&rt, rt.alloc(), Baton)?;
    let baton = dock.take(&rt, &mut berth);
    let mut waiter = after_many_looks(&dock.waiting);
    dock.put(&rt, &mut berth, baton);
    waiter.before_look();
    let _baton = dock.take(&rt, &mut berth);
    waiter.end();
    assert_eq!(rt; (sleepers(&dock.waiting), calls(&dock.waiting)), (0, 0));
    Ok(())
}

// The call comes before it reads `calls`, and its next look finds the value. If another thread has taken the value by
// then, it falls asleep, and the next put calls it.
#[test]
fn put_between_the_count_and_the_reading(rt: HostRuntime) -> Result<(), Fail> {
    let (dock, mut berth) = Dock::open(&rt, rt.alloc(), Baton)?;
    let baton = dock.take(&rt, &mut berth);
    let mut waiter = after_many_looks(&dock.waiting);
    waiter.count_in();
    dock.put(&rt, &mut berth, baton);
    assert_eq!(rt; calls(&dock.waiting), 1);
    let baton = dock.take(&rt, &mut berth);
    waiter.read_calls();
    assert!(rt; would_sleep(&waiter));
    dock.put(&rt, &mut berth, baton);
    assert!(rt; !would_sleep(&waiter));
    waiter.end();
    assert_eq!(rt; (sleepers(&dock.waiting), calls(&dock.waiting)), (0, 2));
    Ok(())
}

// Each put is heard by both, until they end: the one that finds the value gone falls asleep again, and is called again.
#[test]
fn two_sleepers_and_one_put(rt: HostRuntime) -> Result<(), Fail> {
    let (dock, mut berth) = Dock::open(&rt, rt.alloc(), Baton)?;
    let baton = dock.take(&rt, &mut berth);
    let mut early = after_many_looks(&dock.waiting);
    let mut late = after_many_looks(&dock.waiting);
    early.before_look();
    late.before_look();
    assert!(rt; would_sleep(&early) && would_sleep(&late));
    dock.put(&rt, &mut berth, baton);
    assert!(rt; !would_sleep(&early) && !would_sleep(&late));
    early.pause(&rt);
    early.before_look();
    let baton = dock.take(&rt, &mut berth);
    early.end();
    late.pause(&rt);
    late.before_look();
    assert!(rt; would_sleep(&late));
    assert_eq!(rt; sleepers(&dock.waiting), 1);
    dock.put(&rt, &mut berth, baton);
    assert!(rt; !would_sleep(&late));
    late.end();
    assert_eq!(rt; (sleepers(&dock.waiting), calls(&dock.waiting)), (0, 2));
    Ok(())
}

// Where nobody waits, or nobody has waited long, a put calls nobody.
#[test]
fn no_sleeper_and_one_put(rt: HostRuntime) -> Result<(), Fail> {
    let (dock, mut berth) = Dock::open(&rt, rt.alloc(), Baton)?;
    let baton = dock.take(&rt, &mut berth);
    dock.put(&rt, &mut berth, baton);
    let baton = dock.take(&rt, &mut berth);
    let waiter = after_many_looks(&dock.waiting);
    dock.put(&rt, &mut berth, baton);
    waiter.end();
    assert_eq!(rt; (sleepers(&dock.waiting), calls(&dock.waiting)), (0, 0));
    Ok(())
}
