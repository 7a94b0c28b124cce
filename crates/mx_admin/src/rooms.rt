// What the admin port asks of who has the rooms.
use mx_metrics::ShardCounts;
use std::alloc::{AllocError, Global};
use std::mem;
use std::sync::{Arc, Condvar, Mutex, Wait};
use std::time::{Clock, Duration};

/// What is asked of who has the rooms.
#[derive(Drop)]
pub enum RoomOrder {
    // A line of JSON for each room.
    List,
    // That the room of a line is hosted, as of a file of rooms.
    Host(Vec<u8>),
}

/// What an order is answered: a status of HTTP, and lines of JSON.
#[derive(Drop)]
pub struct RoomsReply {
    pub status: u16,
    pub text: String,
}

/// An order, and its number, by which it is answered.
#[derive(Drop)]
pub struct NumberedOrder {
    pub number: u64,
    pub order: RoomOrder,
}

// An answer, and the number of its order.
#[derive(Drop)]
struct NumberedReply {
    number: u64,
    reply: RoomsReply,
}

#[derive(Drop)]
struct OrderState {
    // How many orders there were.
    count: u64,
    // The order that is to be done.
    order: Option<NumberedOrder>,
    // The answer that is to be taken.
    reply: Option<NumberedReply>,
    // What the shards have, as was told last.
    shards: Vec<ShardCounts>,
}

impl OrderState {
    // Whether the order with this number is answered.
    fn is_answered(&self, number: u64) -> bool {
        match &self.reply {
            Some(reply) => reply.number == number,
            None => false,
        }
    }
}

#[derive(Drop)]
struct SharedOrders {
    state: Mutex<OrderState>,
    changed: Condvar,
}

/// Where who asks for rooms, one at a time, and who has them meet: neither waits for the other for longer than it wants to.
#[derive(Drop)]
pub struct RoomDesk {
    shared: Arc<SharedOrders>,
}

impl RoomDesk {
    /// Nothing is asked, and nothing is known of the shards. `AllocError` where no memory is left.
    pub fn new(alloc: Global) -> Result<RoomDesk, AllocError> {
        let state = OrderState {
            count: 0,
            order: None,
            reply: None,
            shards: Vec::new(alloc),
        };
        let shared = SharedOrders {
            state: Mutex::new(state),
            changed: Condvar::new(),
        };
        Ok(RoomDesk {
            shared: Arc::new(alloc, shared)?,
        })
    }

    /// The same, for another thread. `AllocError` where no memory is left.
    pub fn another(&self) -> Result<RoomDesk, AllocError> {
        Ok(RoomDesk {
            shared: Arc::try_clone(&self.shared)?,
        })
    }

    /// What who has the rooms answers to an order; none where it has not for so long. Then the order is withdrawn, unless it was
    /// begun.
    pub fn ask<R: Wait + Clock>(
        &self,
        rt: &R,
        order: RoomOrder,
        longest: Duration,
    ) -> Option<RoomsReply> {
        let mut state = self.shared.state.lock(rt);
        let number = state.count.saturating_add(1);
        state.count = number;
        state.order = Some(NumberedOrder { number, order });
        self.shared.changed.notify_all();
        let (mut state, _timed) = self
            .shared
            .changed
            .wait_timeout_while(rt, state, longest, |state| !state.is_answered(number));
        state.order = None;
        match mem::replace(&mut state.reply, None) {
            Some(answered) if answered.number == number => Some(answered.reply),
            _ => None,
        }
    }

    /// The next order, once there is one; none where none comes for so long.
    pub fn next_order<R: Wait + Clock>(&self, rt: &R, longest: Duration) -> Option<NumberedOrder> {
        let state = self.shared.state.lock(rt);
        let (mut state, _timed) = self
            .shared
            .changed
            .wait_timeout_while(rt, state, longest, |state| state.order.is_none());
        mem::replace(&mut state.order, None)
    }

    /// Answers the order with this number.
    pub fn answer<R: Wait>(&self, rt: &R, number: u64, reply: RoomsReply) {
        let mut state = self.shared.state.lock(rt);
        state.reply = Some(NumberedReply { number, reply });
        self.shared.changed.notify_all();
    }

    /// Tells what the shards have now.
    pub fn tell_shards<R: Wait>(&self, rt: &R, shards: Vec<ShardCounts>) {
        self.shared.state.lock(rt).shards = shards;
    }

    /// What the shards have, as was told last. `AllocError` where no memory is left.
    pub fn shards<R: Wait>(&self, rt: &R, alloc: Global) -> Result<Vec<ShardCounts>, AllocError> {
        let state = self.shared.state.lock(rt);
        let mut shards = Vec::new(alloc);
        for counts in &state.shards {
            shards.push(*counts)?;
        }
        Ok(shards)
    }
}
