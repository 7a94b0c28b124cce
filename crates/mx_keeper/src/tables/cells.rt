// The cells of a row that SQLite showed.
ghost use Rattle.std.specs.Prelude.{◌≡◌, ◌≢◌, IfOk, None, OnOk, Some, option_and_then, string_bytes};
ghost use Rattle.sqlite.specs.Order.{column};
ghost use Rattle.mx_keeper.specs.Cells.{caller_in, number_in, text_in, version_of_text};

use crate::caller::Caller;
use crate::faults::KeeperFault;
use mx_auth::RoomVersion;
use sqlite::types::FromSql;
use sqlite::{Error, ErrorCode, Row};

// `Memory` where no memory was left, else `Table`.
fn misread(error: Error) -> KeeperFault
    ensures table { result ≡ KeeperFault.Table → error ≢ Error.SqliteFailure ErrorCode.OutOfMemory }
    ensures no_store { ¬ (result ≡ KeeperFault.Store) }
{
    match error {
        Error::SqliteFailure(ErrorCode::OutOfMemory) => KeeperFault::Memory,
        _ => KeeperFault::Table,
    }
}

/// The text in a column.
///
/// `Table` where it has no text of UTF-8, `Memory` where no memory is left.
pub fn text_at(row: &Row, at: usize) -> Result<String, KeeperFault>
    ensures ok { IfOk result (λ text. text_in (column row.now at) ≡ Some (string_bytes text)) }
    ensures table { result ≡ Err KeeperFault.Table → text_in (column row.now at) ≡ None }
    ensures no_store { ¬ (result ≡ Err KeeperFault.Store) }
{
    match row.get::<String>(at) {
        Ok(text) => Ok(text),
        Err(error) => Err(misread(error)),
    }
}

/// The number from 0 on in a column.
///
/// `Table` where it has none, `Memory` where no memory is left.
pub fn number_at(row: &Row, at: usize) -> Result<u64, KeeperFault>
    ensures ok { IfOk result (λ number. number_in (column row.now at) ≡ Some number) }
    ensures table { result ≡ Err KeeperFault.Table → number_in (column row.now at) ≡ None }
    ensures no_store { ¬ (result ≡ Err KeeperFault.Store) }
{
    match row.get::<u64>(at) {
        Ok(number) => Ok(number),
        Err(error) => Err(misread(error)),
    }
}

/// Finds that a row has this place, which is its first cell.
///
/// `Table` where it has another, or none, `Memory` where no memory is left.
pub fn check_place(row: &Row, place: u64) -> Result<(), KeeperFault>
    ensures ok { OnOk result (number_in (column row.now 0) ≡ Some place) }
    ensures table { result ≡ Err KeeperFault.Table → number_in (column row.now 0) ≢ Some place }
    ensures no_store { ¬ (result ≡ Err KeeperFault.Store) }
{
    let at = number_at(row, 0)?;
    if at != place {
        return Err(KeeperFault::Table);
    }
    Ok(())
}

/// The version of rooms in a column.
///
/// `Table` where it has no text that names one that is recognised, `Memory` where no memory is left.
pub fn version_at(row: &Row, at: usize) -> Result<RoomVersion, KeeperFault>
    ensures ok { IfOk result (λ version. option_and_then version_of_text (text_in (column row.now at)) ≡ Some version) }
    ensures table { result ≡ Err KeeperFault.Table → option_and_then version_of_text (text_in (column row.now at)) ≡ None }
    ensures no_store { ¬ (result ≡ Err KeeperFault.Store) }
{
    let text = text_at(row, at)?;
    match text.as_str() {
        "6" => Ok(RoomVersion::V6),
        "7" => Ok(RoomVersion::V7),
        _ => Err(KeeperFault::Table),
    }
}

/// The caller in a column.
///
/// `Table` where it has no number of 32 bits, `Memory` where no memory is left.
pub fn caller_at(row: &Row, at: usize) -> Result<Caller, KeeperFault>
    ensures ok { IfOk result (λ caller. caller_in (column row.now at) ≡ Some caller) }
    ensures table { result ≡ Err KeeperFault.Table → caller_in (column row.now at) ≡ None }
    ensures no_store { ¬ (result ≡ Err KeeperFault.Store) }
{
    match row.get::<u32>(at) {
        Ok(number) => Ok(Caller::new(number)),
        Err(error) => Err(misread(error)),
    }
}
