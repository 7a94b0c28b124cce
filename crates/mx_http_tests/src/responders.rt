// A responder that counts, and who hears that connections are taken in.
use bytes::Bytes;
use mx_http::{
    Announcer, AskedCall, Claim, HttpReply, HttpRequest, ListenerHandle, ReadRequest, Responder,
    Responders,
};
use std::alloc::{AllocError, Global};
use std::io;
use std::sync::{Arc, OnceLock, Wait};
use std::time::Clock;

/// How many bytes a long reply has.
pub(crate) const LONG: usize = 300_000;

/// Gives each request one answer, but a long one at /long, and counts them.
#[derive(Drop)]
pub(crate) struct Counter {
    pub(crate) answered: u32,
    // How many it wants to answer.
    pub(crate) wanted: u32,
}

/// So many responders for event loops and for threads beside them, each of which wants to answer so many requests.
pub(crate) fn crew_of_counters(
    alloc: Global,
    count: u32,
    wanted: u32,
) -> Result<Responders<Counter>, AllocError> {
    Ok(Responders {
        loops: counters(alloc, count, wanted)?,
        threads: counters(alloc, count, wanted)?,
    })
}

fn counters(alloc: Global, count: u32, wanted: u32) -> Result<Vec<Counter>, AllocError> {
    let mut counters = Vec::new(alloc);
    for _ in 0..count {
        counters.push(Counter {
            answered: 0,
            wanted,
        })?;
    }
    Ok(counters)
}

pub(crate) fn reply(status: u16) -> HttpReply {
    HttpReply {
        status,
        body: Bytes::from_static(b"{}"),
        allowed: None,
    }
}

fn long_reply(alloc: Global) -> Result<HttpReply, AllocError> {
    let bytes = vec![in alloc; b'#'; LONG]?;
    Ok(HttpReply {
        status: 200,
        body: Bytes::from_vec(bytes)?,
        allowed: None,
    })
}

impl Responder for Counter {
    ghost use Rattle.std.specs.Prelude.{⊤};

    // Whether its reply is long.
    type Call = bool;

    ghost can_respond = { ⊤ };

    fn has_long_reply(_method: &str, target: &[u8]) -> bool {
        target.starts_with(b"/long")
    }

    fn is_short(&self, _request: &HttpRequest) -> bool {
        true
    }

    fn read(&mut self, _alloc: Global, request: HttpRequest) -> ReadRequest<bool> {
        ReadRequest::Asking(AskedCall {
            call: request.target.starts_with(b"/long"),
            claim: Claim::Nothing,
            is_quick: false,
        })
    }

    fn respond<R: Wait + Clock>(&mut self, _rt: &R, alloc: Global, is_long: bool) -> HttpReply {
        self.answered = self.answered.saturating_add(1);
        if is_long {
            return long_reply(alloc).unwrap_or(reply(500));
        }
        reply(200)
    }

    fn is_done(&self) -> bool {
        self.answered >= self.wanted
    }

    fn refuse_body(&self, _alloc: Global) -> HttpReply {
        reply(413)
    }

    fn refuse_coding(&self, _alloc: Global) -> HttpReply {
        reply(501)
    }

    fn refuse_framing(&self, _alloc: Global) -> HttpReply {
        reply(400)
    }
}

/// How often it was told, and the handle of the listener that told it first.
#[derive(Drop)]
pub(crate) struct Ear {
    pub(crate) told: u32,
    pub(crate) heard: Arc<OnceLock<ListenerHandle>>,
}

impl Ear {
    pub(crate) fn new(alloc: Global) -> Result<Ear, AllocError> {
        Ok(Ear {
            told: 0,
            heard: Arc::new(alloc, OnceLock::new())?,
        })
    }
}

impl Announcer for Ear {
    fn announce(&mut self, handle: ListenerHandle) -> io::Result<()> {
        self.told = self.told.saturating_add(1);
        let _ = self.heard.try_set(handle);
        Ok(())
    }
}
