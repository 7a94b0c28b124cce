// Whose connection is closed first where there is no room for what is held for clients.
ghost use Rattle.std.specs.Prelude.{◌≡◌};
ghost use Rattle.mx_http.specs.Memory.{since, longest_from, begun_by, closed_first};

use crate::places::giving_way::{Wait, longer};

/// What a connection waits for that holds bytes.
#[derive(Clone, Copy)]
pub enum Awaited {
    // That its client reads a reply, or sends the rest of a body.
    Client,
    // That others hold less.
    Room,
}

/// What a connection does that holds bytes, and since which moment.
#[derive(Clone, Copy)]
pub enum Holder {
    // It waits for its client, which has taken nothing of its reply since this moment, or whose body began then.
    AwaitsClient(u64),
    // It waits for room, as all others do, for a body that began at this moment.
    AwaitsRoom(u64),
    // It goes on without its client, or is asked to make room.
    Answered,
}

impl Holder {
    // Since when this is awaited.
    fn since(self, awaited: Awaited) -> Option<u64>
        ensures { result ≡ since awaited self }
    {
        match (self, awaited) {
            (Holder::AwaitsClient(moment), Awaited::Client)
            | (Holder::AwaitsRoom(moment), Awaited::Room) => Some(moment),
            _ => None,
        }
    }
}

// Which has waited so for longest.
fn longest(awaited: Awaited, holders: &[Holder]) -> Option<Wait>
    ensures { result ≡ longest_from awaited 0 holders.now }
{
    let mut found = None;
    for place in (0..holders.len()).rev() {
        found = longer(holders[place].since(awaited), place, found);
    }
    found
}

// The place of a wait that began at this moment at the latest.
fn begun_by(latest: u64, wait: Option<Wait>) -> Option<usize>
    ensures { result ≡ begun_by latest wait }
{
    match wait {
        Some(wait) if wait.since <= latest => Some(wait.place),
        _ => None,
    }
}

/// The place of who is closed first: of the one whose client has been awaited longest, and where none has been since
/// `latest`, of the one that has waited for room longest; of two as long, the first. None where none has waited since then.
pub fn closed_first(latest: u64, holders: &[Holder]) -> Option<usize>
    ensures { result ≡ closed_first latest holders.now }
{
    let client = begun_by(latest, longest(Awaited::Client, holders));
    client.or(begun_by(latest, longest(Awaited::Room, holders)))
}
