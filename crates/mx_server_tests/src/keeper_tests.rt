use crate::values::{book_row, refused};
use mx_keeper::{Keeper, KeeperFault, NotAdopted, SqliteKeeper, TableRow};
use sqlite::{Alter, Connection, MemStore};
use std::alloc::{AllocError, Global};
use std::test::Fail;

// The calls under test, with no clauses of their own: a test then carries no more than what they answer.
fn take_in<S: Alter + Drop, R: TableRow>(
    alloc: Global,
    connection: Connection<S>,
) -> Result<SqliteKeeper<S, R>, KeeperFault> {
    match SqliteKeeper::adopt(alloc, connection) {
        Ok(keeper) => Ok(keeper),
        Err(NotAdopted { fault, .. }) => Err(fault),
    }
}

// The connection after two rows were added to what it has.
fn keep<S: Alter + Drop, R: TableRow>(
    alloc: Global,
    connection: Connection<S>,
    first: &R,
    second: &R,
) -> Result<Connection<S>, KeeperFault> {
    let mut keeper = take_in::<S, R>(alloc, connection)?;
    keeper.append(first)?;
    keeper.append(second)?;
    Ok(keeper.into_connection())
}

fn is_refused<S: Alter + Drop, R: TableRow>(keeper: &mut SqliteKeeper<S, R>, row: &R) -> bool {
    match keeper.append(row) {
        Ok(()) => false,
        Err(fault) => fault == KeeperFault::Store,
    }
}

fn count_of_rows<S: Alter + Drop, R: TableRow>(
    keeper: &mut SqliteKeeper<S, R>,
) -> Result<usize, KeeperFault> {
    let rows = keeper.rows()?;
    Ok(rows.len())
}

// What a keeper tells of a row that is refused, then how many rows it has with another one, and how many failures.
fn after_a_refusal<S: Alter + Drop, R: TableRow>(
    alloc: Global,
    connection: Connection<S>,
    again: &R,
    other: &R,
) -> Result<(bool, usize, u64), KeeperFault> {
    let mut keeper = take_in::<S, R>(alloc, connection)?;
    let is_refused = is_refused(&mut keeper, again);
    keeper.append(other)?;
    let rows = count_of_rows(&mut keeper)?;
    Ok((is_refused, rows, keeper.failures()))
}

// Two rows are kept, then the first one is kept again, and then a third one.
fn told_of_a_second_reply(alloc: Global) -> Result<(bool, usize, u64), AllocError> {
    let first = book_row(alloc, "a.example", "t1", "{}")?;
    let second = book_row(alloc, "b.example", "t1", "[]")?;
    let third = book_row(alloc, "a.example", "t2", "{}")?;
    let opened = Connection::<MemStore>::open_in_memory(alloc).map_err(refused)?;
    let connection = keep(alloc, opened, &first, &second).map_err(refused)?;
    after_a_refusal(alloc, connection, &first, &third).map_err(refused)
}

#[test]
fn a_second_reply_is_refused(rt: HostRuntime) -> Result<(), Fail> {
    assert_eq!(rt; told_of_a_second_reply(rt.alloc())?, (true, 3, 1));
    Ok(())
}
