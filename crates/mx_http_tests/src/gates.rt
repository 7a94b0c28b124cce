// Responders whose requests wait at a gate.
use crate::responders::reply;
use mx_http::{AskedCall, Claim, HttpReply, HttpRequest, ReadRequest, Responder, Responders};
use std::alloc::{AllocError, Global};
use std::sync::atomic::{AtomicBool, Ordering};
use std::sync::{Arc, Wait};
use std::thread;
use std::time::Clock;

/// What the requests of a test have done.
#[derive(Drop)]
pub(crate) struct Gate {
    // One is answered, and waits for the gate to open.
    pub(crate) is_reached: AtomicBool,
    pub(crate) is_open: AtomicBool,
    // One is held by nobody any more.
    pub(crate) is_left: AtomicBool,
}

impl Gate {
    pub(crate) fn new() -> Gate {
        Gate {
            is_reached: AtomicBool::new(false),
            is_open: AtomicBool::new(false),
            is_left: AtomicBool::new(false),
        }
    }
}

/// Waits until it is so.
pub(crate) fn wait_until<R: Wait>(rt: &R, is_so: &AtomicBool) {
    for _ in rt.forever() {
        if is_so.load(Ordering::SeqCst) {
            return;
        }
        thread::yield_now();
    }
}

/// Where a request goes.
#[derive(Clone, Copy, Debug, PartialEq, Eq, Drop)]
pub(crate) enum Goal {
    // It waits for the gate to open.
    Gate,
    // It opens the gate.
    Opener,
}

/// A request that is told once nobody holds it any more.
pub(crate) struct GateCall {
    goal: Goal,
    gate: Arc<Gate>,
}

impl Drop for GateCall {
    fn drop(self) {
        let Self { goal, gate } = self;
        if goal == Goal::Gate {
            gate.is_left.store(true, Ordering::SeqCst);
        }
    }
}

/// Answers `/gate` once the gate is open, opens it for `/opener`, and refuses each other target. `/gate` changes shard 0, and
/// `/opener` shard 1.
#[derive(Drop)]
pub(crate) struct GateKeeper {
    gate: Arc<Gate>,
    pub(crate) answered: u32,
}

/// One responder for an event loop, and two for threads beside it.
pub(crate) fn crew_of_keepers(
    alloc: Global,
    gate: &Arc<Gate>,
) -> Result<Responders<GateKeeper>, AllocError> {
    Ok(Responders {
        loops: keepers(alloc, gate, 1)?,
        threads: keepers(alloc, gate, 2)?,
    })
}

fn keepers(alloc: Global, gate: &Arc<Gate>, count: u32) -> Result<Vec<GateKeeper>, AllocError> {
    let mut keepers = Vec::new(alloc);
    for _ in 0..count {
        keepers.push(GateKeeper {
            gate: Arc::try_clone(gate)?,
            answered: 0,
        })?;
    }
    Ok(keepers)
}

impl GateKeeper {
    fn asking(&self, goal: Goal, shard: usize) -> ReadRequest<GateCall> {
        match Arc::try_clone(&self.gate) {
            Ok(gate) => ReadRequest::Asking(AskedCall {
                call: GateCall { goal, gate },
                claim: Claim::Changes(shard),
                is_quick: false,
            }),
            Err(_refused) => ReadRequest::Refused(reply(503)),
        }
    }
}

impl Responder for GateKeeper {
    ghost use Rattle.std.specs.Prelude.{⊤};

    type Call = GateCall;

    ghost can_respond = { ⊤ };

    fn has_long_reply(_method: &str, _target: &[u8]) -> bool {
        false
    }

    fn is_short(&self, _request: &HttpRequest) -> bool {
        true
    }

    fn read(&mut self, _alloc: Global, request: HttpRequest) -> ReadRequest<GateCall> {
        match request.target.as_slice() {
            b"/gate" => self.asking(Goal::Gate, 0),
            b"/opener" => self.asking(Goal::Opener, 1),
            _ => ReadRequest::Refused(reply(404)),
        }
    }

    fn respond<R: Wait + Clock>(&mut self, rt: &R, _alloc: Global, call: GateCall) -> HttpReply {
        self.answered = self.answered.saturating_add(1);
        match call.goal {
            Goal::Gate => {
                self.gate.is_reached.store(true, Ordering::SeqCst);
                wait_until(rt, &self.gate.is_open);
            }
            Goal::Opener => self.gate.is_open.store(true, Ordering::SeqCst),
        }
        reply(200)
    }

    fn is_done(&self) -> bool {
        false
    }

    fn refuse_body(&self, _alloc: Global) -> HttpReply {
        reply(413)
    }

    fn refuse_coding(&self, _alloc: Global) -> HttpReply {
        reply(501)
    }

    fn refuse_framing(&self, _alloc: Global) -> HttpReply {
        reply(400)
    }
}
