// Clients of a listener, and the listener.
use crate::gates::GateKeeper;
use crate::responders::{Counter, Ear};
use mx_http::{Limits, Responders, ServeError, serve_on};
use std::alloc::{AllocGlobal, Global};
use std::io::{self, Read, Write};
use std::net::{Net, SocketAddr, TcpListener, TcpStream};
use std::random::RandomSource;
use std::sync::Wait;
use std::thread::Threads;
use std::time::{Clock, Duration};

/// How a reply begins that a responder gives, or that refuses.
pub(crate) const OK: &[u8] = b"HTTP/1.1 200 OK\r\n";

pub(crate) const NOT_FOUND: &[u8] = b"HTTP/1.1 404 Not Found\r\n";

/// Limits that no test meets but for the number of connections.
pub(crate) fn limits(stop_after: Option<u64>) -> Limits {
    Limits {
        connections: 4,
        body: 8,
        memory: 16_000_000,
        idle: Duration::from_secs(60),
        head: Duration::from_secs(60),
        quiet: Duration::from_secs(60),
        stop_after,
    }
}

/// A client that has sent one request.
pub(crate) fn sent<N: Net<Stream = TcpStream>>(
    net: &N,
    address: SocketAddr,
    target: &str,
) -> io::Result<TcpStream> {
    let mut stream = TcpStream::connect(net, address)?;
    stream.write_all(b"GET ")?;
    stream.write_all(target.as_bytes())?;
    stream.write_all(b" HTTP/1.1\r\nHost: x\r\nConnection: close\r\n\r\n")?;
    Ok(stream)
}

/// What a client is told for one request, on a connection of its own.
pub(crate) fn asked<N: Net<Stream = TcpStream>>(
    net: &N,
    alloc: Global,
    address: SocketAddr,
    target: &str,
) -> io::Result<Vec<u8>> {
    let mut stream = sent(net, address, target)?;
    let mut told = Vec::new(alloc);
    stream.read_to_end(&mut told)?;
    Ok(told)
}

/// Whether a client was told a whole reply that begins so.
pub(crate) fn is_told(told: &io::Result<Vec<u8>>, begin: &[u8]) -> bool {
    match told {
        Ok(told) => told.starts_with(begin) && told.ends_with(b"\r\n\r\n{}"),
        Err(_error) => false,
    }
}

/// Serves by counters, as far as these limits go. (The bounds are [`mx_http::ServerRuntime`]'s: a closure can't call what
/// asks for that trait.)
pub(crate) fn serve_by_counters<R>(
    rt: &R,
    listener: &TcpListener,
    counters: Responders<Counter>,
    limits: Limits,
    ear: &mut Ear,
) -> Result<Vec<Counter>, ServeError>
where
    R: Threads
        + Wait
        + Clock
        + Net<Listener = TcpListener, Stream = TcpStream>
        + RandomSource
        + AllocGlobal
        + Copy
        + Drop
        + Send
        + Sync,
{
    serve_on(rt, listener, counters, limits, ear)
}

/// Serves by keepers of a gate, as far as these limits go.
pub(crate) fn serve_by_keepers<R>(
    rt: &R,
    listener: &TcpListener,
    keepers: Responders<GateKeeper>,
    limits: Limits,
    ear: &mut Ear,
) -> Result<Vec<GateKeeper>, ServeError>
where
    R: Threads
        + Wait
        + Clock
        + Net<Listener = TcpListener, Stream = TcpStream>
        + RandomSource
        + AllocGlobal
        + Copy
        + Drop
        + Send
        + Sync,
{
    serve_on(rt, listener, keepers, limits, ear)
}
