// What counts the rooms of a running server, tells of them, and hosts further ones, in a thread beside those that answer.

use mx_admin::{NumberedOrder, RoomDesk, RoomOrder, RoomsReply};
use mx_directory::{ServerError, StartError};
use mx_http::ServerRuntime;
use mx_ident::RoomId;
use mx_keeper::ShardCount;
use mx_line_queue::LineSender;
use mx_metrics::ShardCounts;
use mx_room::Room;
use mx_room_figures::{room_lines, survey};
use std::alloc::{AllocError, Global};
use std::collections::BTreeSet;
use std::sync::Wait;
use std::thread::Builder;
use std::time::Duration;

// How many seconds pass until the rooms are counted again.
const SECONDS_BETWEEN: u64 = 2;

/// The rooms of a running server, as one of its threads reaches them.
pub trait ServerRooms {
    /// What is read of the rooms of a shard; none where there is no such shard.
    fn read_rooms<R: Wait, A, F: FnOnce(&[Room]) -> A + Drop>(
        &mut self,
        rt: &R,
        shard: usize,
        read: F,
    ) -> Option<A>
        requires { F.IsAlwaysCallable read };

    /// Hosts the room of a line, as of a file of rooms, and gives what the line is answered. `AllocError` where no memory is left
    /// for the answer.
    fn host_line<R: Wait>(
        &mut self,
        rt: &R,
        alloc: Global,
        line: &[u8],
    ) -> Result<RoomsReply, AllocError>;
}

/// Where orders about rooms come, who is warned of rooms that are nearly full, and of which rooms that was done.
#[derive(Drop)]
pub struct RoomNotices {
    desk: RoomDesk,
    lines: LineSender,
    warned: BTreeSet<RoomId>,
}

impl RoomNotices {
    /// Nobody was warned yet.
    pub fn new(alloc: Global, desk: RoomDesk, lines: LineSender) -> RoomNotices {
        RoomNotices {
            desk,
            lines,
            warned: BTreeSet::new(alloc),
        }
    }

    // Warns once of each of these rooms, which are nearly full.
    fn warn_of<R: Wait>(
        &mut self,
        rt: &R,
        alloc: Global,
        rooms: Vec<RoomId>,
    ) -> Result<(), AllocError> {
        for room in rooms {
            if !self.warned.contains(&room) {
                let id = room.as_str();
                let text = format!(in alloc;
                    "warning: {id}: 45,000 of the 50,000 events that a room may have are there"
                );
                self.lines.send_text(rt, text);
                let _ = self.warned.insert(room)?;
            }
        }
        Ok(())
    }
}

/// What counts the rooms of so many shards, tells of them, and hosts further ones.
#[derive(Drop)]
pub struct RoomWatch<S: ServerRooms + Drop> {
    pub rooms: S,
    pub shards: ShardCount,
    pub notices: RoomNotices,
}

impl<S: ServerRooms + Drop> RoomWatch<S> {
    // Counts the rooms, and does the next order, if one comes before they are to be counted again.
    fn look<R: ServerRuntime>(&mut self, rt: &R) {
        let alloc = rt.alloc();
        if let Ok(shards) = self.counted(rt, alloc) {
            self.notices.desk.tell_shards(rt, shards);
        }
        let longest = Duration::from_secs(SECONDS_BETWEEN);
        if let Some(asked) = self.notices.desk.next_order(rt, longest) {
            let NumberedOrder { number, order } = asked;
            let reply = self.done(rt, alloc, order);
            self.notices.desk.answer(rt, number, reply);
        }
    }

    // What each shard has. `AllocError` where no memory is left.
    fn counted<R: Wait>(&mut self, rt: &R, alloc: Global) -> Result<Vec<ShardCounts>, AllocError> {
        let mut shards = Vec::new(alloc);
        for shard in 0..self.shards.get() {
            shards.push(self.counts_of(rt, alloc, shard)?)?;
        }
        Ok(shards)
    }

    // What a shard has: its rooms are read some at a time, so that nobody waits long for it.
    fn counts_of<R: Wait>(
        &mut self,
        rt: &R,
        alloc: Global,
        shard: usize,
    ) -> Result<ShardCounts, AllocError> {
        let mut counts = ShardCounts::new();
        let mut from = Some(0);
        for _ in rt.forever() {
            let Some(place) = from else {
                return Ok(counts);
            };
            let read = self.rooms.read_rooms(
                rt,
                shard,
                move |rooms| survey(alloc, rooms, place, counts),
            );
            let Some(read) = read else {
                return Ok(counts);
            };
            let surveyed = read?;
            counts = surveyed.counts;
            from = surveyed.next;
            self.notices.warn_of(rt, alloc, surveyed.nearly_full)?;
        }
        unreachable!()
    }

    // What an order is answered. Where no memory is left for that, it is told so.
    fn done<R: Wait>(&mut self, rt: &R, alloc: Global, order: RoomOrder) -> RoomsReply {
        let told = match order {
            RoomOrder::List => self.listed(rt, alloc),
            RoomOrder::Host(line) => self.rooms.host_line(rt, alloc, &line),
        };
        match told {
            Ok(reply) => reply,
            Err(_refused) => RoomsReply {
                status: UNAVAILABLE,
                text: String::new(alloc),
            },
        }
    }

    // A line for each room.
    fn listed<R: Wait>(&mut self, rt: &R, alloc: Global) -> Result<RoomsReply, AllocError> {
        let mut text = String::new(alloc);
        for shard in 0..self.shards.get() {
            self.list_shard(rt, alloc, shard, &mut text)?;
        }
        Ok(RoomsReply { status: OK, text })
    }

    // Adds a line for each room of a shard. They are read some at a time.
    fn list_shard<R: Wait>(
        &mut self,
        rt: &R,
        alloc: Global,
        shard: usize,
        text: &mut String,
    ) -> Result<(), AllocError> {
        let mut from = Some(0);
        for _ in rt.forever() {
            let Some(place) = from else {
                return Ok(());
            };
            let read = self
                .rooms
                .read_rooms(rt, shard, move |rooms| room_lines(alloc, rooms, place));
            let Some(read) = read else {
                return Ok(());
            };
            let lines = read?;
            text.push_str(&String::from_utf8_lossy(alloc, &lines.text)?)?;
            from = lines.next;
        }
        unreachable!()
    }
}

const OK: u16 = 200;

const UNAVAILABLE: u16 = 503;

/// Starts the thread that counts the rooms, for as long as the program runs.
///
/// `Thread` where it can't be started.
pub fn start_room_watch<S, R>(rt: &R, watch: RoomWatch<S>) -> Result<(), StartError>
where
    S: ServerRooms + Send + Drop + 'static,
    R: ServerRuntime + 'static,
{
    let runtime = *rt;
    match Builder::new().spawn(rt, move || look_on(&runtime, watch)) {
        Ok(_handle) => Ok(()),
        Err(_error) => Err(StartError::from(ServerError::Thread)),
    }
}

fn look_on<S: ServerRooms + Drop, R: ServerRuntime>(rt: &R, watch: RoomWatch<S>) {
    let mut watch = watch;
    for _ in rt.forever() {
        watch.look(rt);
    }
}
