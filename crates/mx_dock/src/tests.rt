ghost use Rattle.std.specs.Prelude.{◌≡◌, ◌<◌, ℕ, false, length, All, slice_index_or};
ghost use Rattle.mx_dock.specs.Dock.{IsBerthOf, IsSameBerth, number as number_of, made, holds};

use crate::{Berth, Dock, Journaled};
use std::alloc::{AllocError, Global};
use std::sync::Wait;
use std::sync::atomic::{AtomicU64, Ordering};
use std::test::Fail;
use std::thread::Threads;
use std::{hint, thread};

// That threads which take the value and put it back come to an end, and that each call can be made: no clause says so.

// Entries, each with the number of its berth, and a count.
#[derive(Drop)]
struct Ledger {
    entries: Vec<(u64, u64)>,
}

impl Journaled for Ledger {
    type Entry = (u64, u64);

    ghost journal = { λ ledger. ledger.entries.items };

    ghost caller = { λ entry. entry.0 };

    ghost place = { λ _. 0 };
}

// A berth, its number, and how many entries its owner adds in a round, in a turn of its own for each. Where it
// alternates, it takes the value again only once another owner had it.
#[derive(Drop)]
struct Owner {
    berth: Berth<Ledger>,
    number: u64,
    turns: u64,
    alternates: bool,
}

// So many turns each of three owners has.
const TURNS: u64 = 200;

// So many rounds eight owners have.
const ROUNDS: u64 = 125;

// So many turns each of two owners has, who alternate.
const TURNS_OF_TWO: u64 = 20_000;

fn add<R: Wait>(
    rt: &R,
    dock: &Dock<Ledger>,
    last: &AtomicU64,
    berth: &mut Berth<Ledger>,
    number: u64,
    count: u64,
) -> bool
    requires mine { IsBerthOf dock.now berth.old }
    requires idle { holds berth.old ≡ false }
    requires number { number ≡ number_of berth.old }
    ensures mine { IsBerthOf dock.now berth.new }
    ensures idle { holds berth.new ≡ false }
    ensures same { IsSameBerth berth.old berth.new }
{
    let mut ledger = dock.take(rt, berth);
    let is_added = ledger.entries.push((number, count)).is_ok();
    last.store(number, Ordering::SeqCst);
    hold(count);
    dock.put(rt, berth, ledger);
    is_added
}

// Holds the value for a while: from no time at all to so long that who waits for it falls asleep.
fn hold(count: u64) {
    for _ in 0..count % 1_024 * 37 % 1_024 * 4 {
        hint::spin_loop();
    }
}

// Waits until another owner had the value.
fn give_way<R: Wait>(rt: &R, last: &AtomicU64, number: u64) {
    for _ in rt.forever() {
        if last.load(Ordering::SeqCst) != number {
            return;
        }
        thread::yield_now();
    }
}

fn add_all<R: Wait>(rt: &R, dock: &Dock<Ledger>, last: &AtomicU64, owner: &mut Owner)
    requires mine { IsBerthOf dock.now owner.old.berth }
    requires idle { holds owner.old.berth ≡ false }
    requires number { owner.old.number ≡ number_of owner.old.berth }
    ensures mine { IsBerthOf dock.now owner.new.berth }
    ensures idle { holds owner.new.berth ≡ false }
    ensures number { owner.new.number ≡ number_of owner.new.berth }
    ensures same { IsSameBerth owner.old.berth owner.new.berth }
{
    for count in 0..owner.turns {
        let _is_added = add(rt, dock, last, &mut owner.berth, owner.number, count);
        if owner.alternates && count + 1 < owner.turns {
            give_way(rt, last, owner.number);
        }
    }
}

fn add_in_threads<R: Threads + Wait + Sync>(rt: &R, dock: &Dock<Ledger>, owners: &mut [Owner])
    requires { All (λ o. IsBerthOf dock.now o.berth × (holds o.berth ≡ false) × (o.number ≡ number_of o.berth)) owners.old }
    ensures same { (i : ℕ) (d : Owner) → i < length owners.old → IsSameBerth (slice_index_or owners.old i d).berth (slice_index_or owners.new i d).berth }
    ensures each { All (λ o. IsBerthOf dock.now o.berth × (holds o.berth ≡ false) × (o.number ≡ number_of o.berth)) owners.new }
{
    let last = &AtomicU64::new(0);
    thread::for_each_mut(
        rt,
        owners,
        8,
        &|_, owner|
            requires { IsBerthOf dock.now owner.old.berth × (holds owner.old.berth ≡ false) × (owner.old.number ≡ number_of owner.old.berth) }
            ensures { IsBerthOf dock.entry.now owner.new.berth × (holds owner.new.berth ≡ false) × (owner.new.number ≡ number_of owner.new.berth) × IsSameBerth owner.old.berth owner.new.berth }
        { add_all(rt, dock, last, owner) },
    );
}

fn owner_of(berth: Berth<Ledger>, number: u64, turns: u64, alternates: bool) -> Owner
    ensures { result ≡ record { berth = berth; number = number; turns = turns; alternates = alternates } }
{
    Owner {
        berth,
        number,
        turns,
        alternates,
    }
}

fn close_three<R: Wait>(
    rt: &R,
    dock: Dock<Ledger>,
    mut first: Berth<Ledger>,
    second: Berth<Ledger>,
    third: Berth<Ledger>,
) -> Ledger
    requires first { IsBerthOf dock first × (holds first ≡ false) × (number_of first ≡ 1) }
    requires second { IsBerthOf dock second × (holds second ≡ false) × (number_of second ≡ 2) }
    requires third { IsBerthOf dock third × (holds third ≡ false) × (number_of third ≡ 3) }
    requires made { made first ≡ 3 }
{
    dock.give_back(&mut first, second);
    dock.give_back(&mut first, third);
    dock.close(rt, first)
}

// What three owners add in threads.
fn added_by_three<R: Threads + Wait + Sync>(
    rt: &R,
    alloc: Global,
    ledger: Ledger,
) -> Result<Ledger, AllocError> {
    let (dock, mut first) = Dock::open(rt, alloc, ledger)?;
    let second = dock.berth(&mut first);
    let third = dock.berth(&mut first);
    let mut owners = [
        owner_of(first, 1, TURNS, false),
        owner_of(second, 2, TURNS, false),
        owner_of(third, 3, TURNS, false),
    ];
    add_in_threads(rt, &dock, &mut owners);
    let [first, second, third] = owners;
    Ok(close_three(rt, dock, first.berth, second.berth, third.berth))
}

// Every entry is there once, those of a berth in the order in which it added them, behind the one at the opening.
#[test]
fn threads_add_in_turn(rt: HostRuntime) -> Result<(), Fail> {
    let entries = vec![in rt.alloc(); (9u64, 9u64)]?;
    let ledger = added_by_three(&rt, rt.alloc(), Ledger { entries })?;
    let mut next = [0u64; 3];
    for (place, (number, count)) in ledger.entries.iter().enumerate() {
        if place == 0 {
            assert_eq!(rt; (*number, *count), (9, 9));
            continue;
        }
        assert!(rt; 1 <= *number && *number <= 3);
        let index = (*number - 1) as usize;
        assert_eq!(rt; *count, next[index]);
        assert!(rt; *count < TURNS);
        next[index] = *count + 1;
    }
    assert_eq!(rt; next, [TURNS, TURNS, TURNS]);
    assert_eq!(rt; ledger.entries.len(), 601);
    Ok(())
}

// Each owner adds its entries of a round, in a thread of its own, which then ends; and so in each round.
fn add_in_rounds<R: Threads + Wait + Sync>(rt: &R, dock: &Dock<Ledger>, owners: &mut [Owner])
    requires { All (λ o. IsBerthOf dock.now o.berth × (holds o.berth ≡ false) × (o.number ≡ number_of o.berth)) owners.old }
{
    for _ in 0..ROUNDS {
        add_in_threads(rt, dock, owners);
    }
}

// How many entries eight owners add in threads, of which each second one has other turns than the rest.
fn count_of_eight<R: Threads + Wait + Sync>(
    rt: &R,
    alloc: Global,
    turns: u64,
    other_turns: u64,
) -> Result<usize, AllocError> {
    let entries = Vec::new(alloc);
    let (dock, mut first) = Dock::open(rt, alloc, Ledger { entries })?;
    let second = dock.berth(&mut first);
    let third = dock.berth(&mut first);
    let fourth = dock.berth(&mut first);
    let fifth = dock.berth(&mut first);
    let sixth = dock.berth(&mut first);
    let seventh = dock.berth(&mut first);
    let eighth = dock.berth(&mut first);
    let mut ninth = dock.berth(&mut first);
    let mut owners = [
        owner_of(first, 1, turns, false),
        owner_of(second, 2, other_turns, false),
        owner_of(third, 3, turns, false),
        owner_of(fourth, 4, other_turns, false),
        owner_of(fifth, 5, turns, false),
        owner_of(sixth, 6, other_turns, false),
        owner_of(seventh, 7, turns, false),
        owner_of(eighth, 8, other_turns, false),
    ];
    add_in_rounds(rt, &dock, &mut owners);
    Ok(dock.take(rt, &mut ninth).entries.len())
}

// Nobody who sleeps while it waits is forgotten: each owner comes to all its turns.
#[test]
fn all_are_woken(rt: HostRuntime) -> Result<(), Fail> {
    assert_eq!(rt; count_of_eight(&rt, rt.alloc(), 100, 100)?, 100_000);
    Ok(())
}

// Nor where each second owner stops early, while the others still wait.
#[test]
fn all_are_woken_though_some_stop(rt: HostRuntime) -> Result<(), Fail> {
    assert_eq!(rt; count_of_eight(&rt, rt.alloc(), 100, 10)?, 55_000);
    Ok(())
}

// Each put wakes the other of two owners, at whatever moment of falling asleep that one is: no other put would wake it.
#[test]
fn two_alternate(rt: HostRuntime) -> Result<(), Fail> {
    let entries = Vec::new(rt.alloc());
    let (dock, mut first) = Dock::open(&rt, rt.alloc(), Ledger { entries })?;
    let second = dock.berth(&mut first);
    let mut third = dock.berth(&mut first);
    let mut owners = [
        owner_of(first, 1, TURNS_OF_TWO, true),
        owner_of(second, 2, TURNS_OF_TWO, true),
    ];
    add_in_threads(&rt, &dock, &mut owners);
    let ledger = dock.take(&rt, &mut third);
    assert_eq!(rt; ledger.entries.len(), 40_000);
    Ok(())
}

fn is_sync<T: Sync>(_shared: &T) {}

// A dock may be shared wherever its value may be sent, whether or not the value may be shared.
fn is_dock_sync<T: Journaled + Send>(dock: &Dock<T>) {
    is_sync(dock);
}

// What came through the second berth is seen through the first, after they met.
#[test]
fn berths_meet(rt: HostRuntime) -> Result<(), Fail> {
    let entries = Vec::new(rt.alloc());
    let (dock, mut first) = Dock::open(&rt, rt.alloc(), Ledger { entries })?;
    let mut second = dock.berth(&mut first);
    let last = &AtomicU64::new(0);
    assert!(rt; add(&rt, &dock, last, &mut second, 2, 20));
    is_dock_sync(&dock);
    dock.meet(&rt, &mut first, &mut second);
    assert!(rt; add(&rt, &dock, last, &mut first, 1, 10));
    let ledger = dock.take(&rt, &mut first);
    assert_eq!(rt; ledger.entries.as_slice(), [(2, 20), (1, 10)].as_slice());
    Ok(())
}
