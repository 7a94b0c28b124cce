//! HTTP/1.1 on a listener: its connections, served side by side by event loops in threads, and threads beside these that
//! answer the requests which may have to wait. What a request is answered is the responder's.
#![tactic(auto)]

mod answering;
mod bodies;
mod connections;
mod endings;
mod guards;
mod heads;
mod listening;
mod making;
mod memory;
mod messages;
mod places;
mod pool;
mod quiet;
mod responses;
mod runtimes;
mod stages;
mod turns;
mod workers;

pub use answering::Unanswered;
pub use endings::Ending;
pub use listening::{Announcer, Limits, ListenerHandle, Responders, ServeError, serve_on};
pub use memory::RoomClosings;
pub use messages::{AskedCall, HttpReply, HttpRequest, ReadRequest, Responder};
pub use places::connection_figures::{ConnectionFigures, ConnectionWatch};
pub use pool::claims::Claim;
pub use runtimes::ServerRuntime;
