// What SQLite's answers are to a keeper.
ghost use Rattle.std.specs.Prelude.{◌≡◌, ◌≢◌, ◌⊎◌, ◌↔◌, ◌≤◌, ◌+◌, ◌-◌, ◌<◌, ◌^◌, [], Err, FitsSigned, IfOk, IfSome, IsTrue, None, OnOk, pos};
ghost use Rattle.std.specs.Int.{w64};
ghost use Rattle.sqlite.specs.Held.{state};
ghost use Rattle.sqlite.specs.State.{HasCleanDisk, IsUnchanged, Survives};
ghost use Rattle.mx_keeper.specs.Keeping.{Rose};
ghost use Rattle.mx_keeper.specs.Connections.{IsIdle, MayRefuse, Stays};
ghost use Rattle.mx_keeper.specs.Probing.{LacksMemory};

use crate::faults::KeeperFault;
use sqlite::{Alter, Connection, Error, ErrorCode, Statement};
use std::marker::Model;

// `Memory` where no memory was left, else `Store`.
pub fn fault_of(error: Error) -> KeeperFault
    ensures memory { (result ≡ KeeperFault.Memory) ↔ (error ≡ Error.SqliteFailure ErrorCode.OutOfMemory) }
    ensures no_table { ¬ (result ≡ KeeperFault.Table) }
{
    match error {
        Error::SqliteFailure(ErrorCode::OutOfMemory) => KeeperFault::Memory,
        _ => KeeperFault::Store,
    }
}

// A statement that does nothing.
//
// Its text is empty, so that a run makes no row, reads no table and writes nothing. Such a run takes no memory: it tests
// whether the connection is open, and finds the plan by its number, since the connection keeps 64 plans, of which a
// keeper uses three.
pub fn idle_statement<S: Alter>(connection: &mut Connection<S>) -> Result<Statement, KeeperFault>
    ensures text { HasCleanDisk (state S.Store connection.new) → IfOk result (λ probe. probe.text ≡ []) }
    ensures same { HasCleanDisk (state S.Store connection.new) → OnOk result (IsUnchanged (state S.Store connection.old) (state S.Store connection.new)) }
    ensures store { HasCleanDisk (state S.Store connection.new) → result ≡ Err KeeperFault.Store → MayRefuse (state S.Store connection.old) (state S.Store connection.new) }
    ensures no_table { ¬ (result ≡ Err KeeperFault.Table) }
    ensures survives { Survives (state S.Store connection.old) (state S.Store connection.new) (λ _. ⊥) }
{
    match connection.prepare("") {
        Ok(probe) => Ok(probe),
        Err(error) => Err(fault_of(error)),
    }
}

// Finds that the connection is open, by a run of the statement that does nothing.
//
// `Store` where SQLite refuses it, `Memory` where no memory is left to find that.
pub fn find_open<S: Alter>(
    connection: &mut Connection<S>,
    probe: &Statement,
) -> Result<(), KeeperFault>
    requires idle { IsTrue (state S.Store connection.old).is_open → IsIdle (state S.Store connection.old) }
    requires probe { HasCleanDisk (state S.Store connection.old) → probe.now.text ≡ [] }
    ensures open { HasCleanDisk (state S.Store connection.new) → OnOk result (IsTrue (state S.Store connection.new).is_open) }
    ensures stays { HasCleanDisk (state S.Store connection.new) → IsTrue (state S.Store connection.new).is_open → Stays (state S.Store connection.old) (state S.Store connection.new) }
    ensures store { HasCleanDisk (state S.Store connection.new) → result ≡ Err KeeperFault.Store → MayRefuse (state S.Store connection.old) (state S.Store connection.new) }
    ensures memory { HasCleanDisk (state S.Store connection.new) → result ≡ Err KeeperFault.Memory
        → LacksMemory (state S.Store connection.old) (state S.Store connection.new) }
    ensures no_table { ¬ (result ≡ Err KeeperFault.Table) }
    ensures survives { Survives (state S.Store connection.old) (state S.Store connection.new) (λ _. ⊥) }
{
    match probe.execute(connection, &[]) {
        Ok(_) => Ok(()),
        Err(error) => Err(fault_of(error)),
    }
}

/// How often no memory was left to find whether a connection is open. Only [`told`] adds to it.
#[derive(Debug, Drop)]
pub struct Doubts {
    count: u64,
}

impl Model for Doubts {
    ghost use Rattle.std.specs.Prelude.{ℕ};

    ghost Value = { ℕ };

    ghost view = { λ doubts. doubts.count };
}

impl Doubts {
    /// No doubt so far.
    pub fn none() -> Doubts
        ensures { result ≡ 0 }
    {
        Doubts { count: 0 }
    }
}

// What a keeper tells where a call failed: that memory was lacking only where the connection is open. Where no memory is
// left to find that, the doubt is counted.
pub fn told<S: Alter>(
    connection: &mut Connection<S>,
    probe: &Statement,
    doubts: &mut Doubts,
    fault: KeeperFault,
) -> KeeperFault
    requires idle { IsTrue (state S.Store connection.old).is_open → IsIdle (state S.Store connection.old) }
    requires probe { HasCleanDisk (state S.Store connection.old) → probe.now.text ≡ [] }
    ensures memory { HasCleanDisk (state S.Store connection.new) → result ≡ KeeperFault.Memory → IsTrue (state S.Store connection.new).is_open }
    ensures table { result ≡ KeeperFault.Table → fault ≡ KeeperFault.Table }
    // Another fault than memory is told as it is.
    ensures same { ¬ (fault ≡ KeeperFault.Memory) → (result ≡ fault) × (connection.new ≡ connection.old) × (doubts.new ≡ doubts.old) }
    ensures store { HasCleanDisk (state S.Store connection.new) → fault ≡ KeeperFault.Memory → result ≡ KeeperFault.Store
        → MayRefuse (state S.Store connection.old) (state S.Store connection.new) ⊎ Rose doubts.old doubts.new }
    ensures sure { ¬ (result ≡ KeeperFault.Store) → doubts.new ≡ doubts.old }
    // It is in doubt only where no memory was left for the probe either.
    ensures doubted { HasCleanDisk (state S.Store connection.new) → doubts.new ≢ doubts.old
        → (fault ≡ KeeperFault.Memory) × LacksMemory (state S.Store connection.old) (state S.Store connection.new) }
    ensures stays { HasCleanDisk (state S.Store connection.new) → IsTrue (state S.Store connection.new).is_open → Stays (state S.Store connection.old) (state S.Store connection.new) }
    ensures survives { Survives (state S.Store connection.old) (state S.Store connection.new) (λ _. ⊥) }
{
    match fault {
        KeeperFault::Memory => match find_open(connection, probe) {
            Ok(()) => KeeperFault::Memory,
            Err(KeeperFault::Memory) => {
                doubts.count = doubts.count.saturating_add(1);
                KeeperFault::Store
            }
            Err(_) => KeeperFault::Store,
        },
        _ => fault,
    }
}

// The count of failures after this one. Want of memory is none.
pub fn counted(failures: u64, fault: KeeperFault) -> u64
    ensures rose { fault ≡ KeeperFault.Store → Rose failures result }
    ensures calm { ¬ (fault ≡ KeeperFault.Store) → result ≡ failures }
    ensures counted { failures ≤ result }
{
    match fault {
        KeeperFault::Store => failures.saturating_add(1),
        _ => failures,
    }
}

// The place behind so many rows, none where SQLite has none.
pub fn place_after(count: u64) -> Option<i64>
    ensures none { (result ≡ None) ↔ (2 ^ 63 - 1 ≤ count) }
    ensures place { IfSome result (λ place. (place ≡ pos (count + 1)) × (count < 2 ^ 63)) }
    ensures fits { IfSome result (λ place. FitsSigned w64 place) }
{
    match integer_of(count) {
        Some(count) if count < i64::MAX => Some(count + 1),
        _ => None,
    }
}

fn integer_of(number: u64) -> Option<i64>
    ensures value { IfSome result (λ integer. integer ≡ pos number) }
    ensures none { result ≡ None → 2 ^ 63 - 1 < number }
{
    match i64::try_from(number) {
        Ok(integer) => Some(integer),
        Err(_) => None,
    }
}
