// The answering threads.
use crate::endings::Ending;
use crate::messages::{HttpReply, ReadRequest, Responder};
use crate::pool::jobs::{Job, Work};
use crate::pool::shared::Pool;
use crate::runtimes::ServerRuntime;
use std::alloc::Global;
use std::sync::{Arc, Mutex};
use tokio::sync::oneshot;

/// What an answering thread has.
#[derive(Drop)]
pub struct AnsweringThread<A: Responder> {
    pub responder: Arc<Mutex<A>>,
    pub pool: Arc<Pool<A::Call>>,
    // Its number among the threads of its pool.
    pub number: usize,
    pub ending: Ending,
}

// A call, and where its reply goes.
type Asked<C> = (C, oneshot::Sender<HttpReply>);

/// Answers the requests that wait, one after another, until no more will come.
pub fn answer_each<R: ServerRuntime, A: Responder>(rt: &R, thread: AnsweringThread<A>)
    requires { A.can_respond }
{
    let mut responder = thread.responder.lock(rt);
    for _ in rt.forever() {
        let Some(job) = thread.pool.take(rt, thread.number) else {
            return;
        };
        if let Some((call, reply)) = read(rt, rt.alloc(), &thread, &mut *responder, job) {
            let told = responder.respond(rt, rt.alloc(), call);
            if responder.is_done() {
                thread.ending.want(rt);
            }
            let _ = reply.send(told);
        }
    }
}

// What a request asks for, once it may begin. None where it has a fault, and is answered, or where it waits again.
fn read<R: ServerRuntime, A: Responder>(
    rt: &R,
    alloc: Global,
    thread: &AnsweringThread<A>,
    responder: &mut A,
    job: Job<A::Call>,
) -> Option<Asked<A::Call>> {
    let Job {
        number,
        work,
        reply,
        ..
    } = job;
    let request = match work {
        Work::Answer(call) => return Some((call, reply)),
        Work::Read(request) => request,
    };
    match responder.read(alloc, request) {
        ReadRequest::Refused(told) => {
            let _ = reply.send(told);
            None
        }
        ReadRequest::Asking(asked) => {
            let job = Job {
                number,
                claim: asked.claim,
                work: Work::Answer(asked.call),
                reply,
            };
            let Job { work, reply, .. } = thread.pool.begin(rt, thread.number, job)?;
            match work {
                Work::Answer(call) => Some((call, reply)),
                Work::Read(_) => None,
            }
        }
    }
}
