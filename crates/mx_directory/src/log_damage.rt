// Whether SQLite's write-ahead log is damaged.
ghost use Rattle.std.specs.Prelude.{◌≡◌, ◌+◌, ◌≤◌, length};
ghost use Rattle.sqlite_wal.specs.Format.{be32, stored_sum};
ghost use Rattle.mx_directory.specs.LogDamage as definition;

use sqlite_wal::checksum_of;

// The head of a log: a magic number, the version, the size of a page, the number of the round, salts and a checksum.
const HEAD: usize = 32;

// The head of a frame: the page's number, the size of the database, the salts and the checksum.
const FRAME_HEAD: usize = 24;

// The magic numbers, for words with the lowest byte first and with the highest.
const LOW_FIRST: u32 = 0x377f_0682;

const HIGH_FIRST: u32 = 0x377f_0683;

// A frame with this number of a page begins a transaction.
const COUNT_PAGE: u32 = 0xff00_0000;

/// Whether a log is damaged, so that SQLite passes over transactions that were on the disk: a frame begins a transaction
/// and is whole, and one before it is not, or the head is not as it was written.
///
/// No crash leaves such a log. A transaction begins only once the one before it is on the disk. So a loss of power leaves
/// of the last transaction what it may, and nothing behind it; and the head's first byte is written once the others are
/// on the disk. Damage in the last transaction looks as such a loss does.
pub fn is_damaged(log: &[u8]) -> bool
    ensures { result ≡ definition.is_damaged log.now }
{
    if log.len() < HEAD {
        return false;
    }
    if has_head(log) {
        begins_behind_failed(log)
    } else {
        log[0] != 0
    }
}

// Whether the head is one, by its magic number and its checksum.
fn has_head(log: &[u8]) -> bool
    requires { 32 ≤ length log.now }
    ensures { result ≡ definition.has_head log.now }
{
    let magic = number_at(log, 0);
    let sum = checksum_of(magic == HIGH_FIRST, (0, 0), &log[..24]);
    ((magic == LOW_FIRST) | (magic == HIGH_FIRST)) & same_sum(sum, sum_at(log, 24))
}

// Whether a frame begins a transaction and is whole, behind one that is not.
fn begins_behind_failed(log: &[u8]) -> bool
    requires { 32 ≤ length log.now }
    ensures { result ≡ definition.begins_behind log.now (definition.frame_count log.now) }
{
    let size = FRAME_HEAD + number_at(log, 8) as usize;
    let mut before = sum_at(log, 24);
    let mut fails = false;
    let mut begins = false;
    for number in 0..(log.len() - HEAD) / size {
        let at = HEAD + number * size;
        let is_whole = is_whole_at(log, at, before);
        begins |= fails & is_whole & (number_at(log, at) == COUNT_PAGE);
        fails |= !is_whole;
        before = sum_at(log, at + 16);
    }
    begins
}

// Whether the frame here has the head's salts, and its checksum goes on from this one.
fn is_whole_at(log: &[u8], at: usize, before: (u32, u32)) -> bool
    requires head { 32 ≤ length log.now }
    requires frame { at + (24 + be32 log.now 8) ≤ length log.now }
    ensures { result ≡ definition.is_whole_at log.now at before }
{
    let has_first = number_at(log, at + 8) == number_at(log, 16);
    let has_second = number_at(log, at + 12) == number_at(log, 20);
    has_first & has_second & same_sum(frame_sum(log, at, before), sum_at(log, at + 16))
}

// The checksum of the frame here, which goes on from this one.
fn frame_sum(log: &[u8], at: usize, before: (u32, u32)) -> (u32, u32)
    requires head { 32 ≤ length log.now }
    requires frame { at + (24 + be32 log.now 8) ≤ length log.now }
    ensures { result ≡ definition.frame_sum log.now at before }
{
    let is_big = number_at(log, 0) == HIGH_FIRST;
    let page = at + FRAME_HEAD;
    let size = number_at(log, 8) as usize;
    let front = checksum_of(is_big, before, &log[at..at + 8]);
    checksum_of(is_big, front, &log[page..page + size])
}

fn same_sum(one: (u32, u32), other: (u32, u32)) -> bool
    ensures { result ≡ definition.same_sum one other }
{
    (one.0 == other.0) & (one.1 == other.1)
}

// The checksum that is stored here.
fn sum_at(log: &[u8], at: usize) -> (u32, u32)
    requires { at + 8 ≤ length log.now }
    ensures { result ≡ stored_sum log.now at }
{
    (number_at(log, at), number_at(log, at + 4))
}

// Four bytes as a number, the highest first.
fn number_at(log: &[u8], at: usize) -> u32
    requires { at + 4 ≤ length log.now }
    ensures { result ≡ be32 log.now at }
{
    log[at] as u32 * 0x100_0000
        + log[at + 1] as u32 * 0x1_0000
        + log[at + 2] as u32 * 0x100
        + log[at + 3] as u32
}
