// The ports of a server.
use mx_directory::{ServerError, StartError};
use mx_http::{Limits, ServeError, ServerRuntime};
use mx_options::ServeOptions;
use mx_wire::LARGEST_BODY;
use std::alloc::Global;
use std::net::{Ipv4Addr, TcpListener};
use std::time::Duration;

// How many bytes a megabyte of `--memory` has.
const MEGABYTE: usize = 1_000_000;
// How many seconds a client may take to begin a request.
const IDLE_SECONDS: u64 = 75;
// How many seconds a client may take for the head of a request.
const HEAD_SECONDS: u64 = 10;
// For how many seconds a client may send nothing of a body, or read nothing of a reply.
const QUIET_SECONDS: u64 = 30;

/// Listens at a port of 127.0.0.1, or says why it can't.
pub(crate) fn listener_at<R: ServerRuntime>(rt: &R, port: u16) -> Result<TcpListener, StartError> {
    match TcpListener::bind(rt, (Ipv4Addr::LOCALHOST, port)) {
        Ok(listener) => Ok(listener),
        Err(error) => {
            let alloc = rt.alloc();
            let place = format!(in alloc; "127.0.0.1:{port}")?;
            Err(StartError::of_io(alloc, &place, &error))
        }
    }
}

/// The port at which it listens.
pub(crate) fn port_of(alloc: Global, listener: &TcpListener) -> Result<u16, StartError> {
    match listener.local_addr() {
        Ok(address) => Ok(address.port()),
        Err(error) => Err(StartError::of_io(alloc, "127.0.0.1", &error)),
    }
}

/// How much a server with these options takes in.
pub(crate) fn limits_of(options: &ServeOptions) -> Limits {
    Limits {
        connections: options.connections,
        body: LARGEST_BODY,
        memory: options.memory.saturating_mul(MEGABYTE),
        idle: Duration::from_secs(IDLE_SECONDS),
        head: Duration::from_secs(HEAD_SECONDS),
        quiet: Duration::from_secs(QUIET_SECONDS),
        stop_after: None,
    }
}

/// Why a listener is not served.
pub(crate) fn unserved(alloc: Global, error: &ServeError) -> StartError {
    match error {
        ServeError::Memory => StartError::from(ServerError::Memory),
        ServeError::Thread => StartError::from(ServerError::Thread),
        ServeError::Told(error) => StartError::of_io(alloc, "standard output", error),
    }
}
