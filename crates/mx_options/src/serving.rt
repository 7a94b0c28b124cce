// What a server is told when it starts.
ghost use Rattle.std.specs.Prelude.{◌≡◌, ◌≤◌, ◌<◌, ◌⊎◌, IfNone, IfSome};

use mx_ident::ServerName;
use mx_keeper::ShardCount;
use mx_records::{LevelFilter, RecordForm};
use std::marker::Model;

/// What a server is to serve, and how.
#[derive(Debug, Drop)]
pub struct ServeOptions {
    pub name: ServerName,
    // The directory of its files.
    pub data: String,
    // The port on loopback; 0 for a free one.
    pub port: u16,
    pub threads: SeatCount,
    pub shards: ShardCount,
    // How many connections may be open.
    pub connections: usize,
    // How many megabytes, of 1,000,000 bytes each, may be held of requests that come and of replies that go.
    pub memory: usize,
    // A file of lines, each of which hosts a room.
    pub rooms: Option<String>,
    // Whether the server ends once what keeps rows has failed.
    pub stop_on_storage: bool,
    // Whether it starts though its replies call events kept that are in none of its files.
    pub accept_loss: bool,
    // The log of what it answers; none where it keeps none.
    pub log: Option<ServerLog>,
    // The port on loopback that shows an operator how it is; none where it has none.
    pub admin: Option<u16>,
}

/// The log of a server: as what its lines are written, and how much they have to matter.
#[derive(Debug, Drop)]
pub struct ServerLog {
    // Its file; none where it goes to standard error.
    pub file: Option<String>,
    pub form: RecordForm,
    pub level: LevelFilter,
}

/// How many workers a server has: 1 to 64.
#[derive(Clone, Copy, Debug)]
pub struct SeatCount {
    count: u32,
}

impl Model for SeatCount {
    ghost use Rattle.std.specs.Prelude.{ℕ, ◌≤◌};

    ghost Value = { ℕ };

    ghost view = { λ workers. workers.count };

    ghost invariant = { λ workers. (1 ≤ workers.count) × (workers.count ≤ 64) };

    ghost inverse = { λ count. record { count = count } };
}

impl SeatCount {
    /// So many workers; none where that is 0 or more than 64.
    pub fn of(count: u32) -> Option<SeatCount>
        ensures workers { IfSome result (λ workers. workers ≡ count) }
        ensures none { IfNone result ((count < 1) ⊎ (64 < count)) }
    {
        if 1 <= count && count <= 64 {
            Some(SeatCount { count })
        } else {
            None
        }
    }

    /// How many they are.
    pub fn get(self) -> u32
        ensures count { result ≡ self }
        ensures some { 1 ≤ result }
        ensures few { result ≤ 64 }
    {
        self.count
    }
}
