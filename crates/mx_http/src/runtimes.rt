// What a server runs on.
use std::alloc::AllocGlobal;
use std::net::{Net, TcpListener, TcpStream};
use std::random::RandomSource;
use std::sync::Wait;
use std::thread::Threads;
use std::time::Clock;

/// What a server of connections runs on: threads that may wait, a clock, sockets, random numbers, and memory.
pub trait ServerRuntime: Threads
    + Wait
    + Clock
    + Net<Listener = TcpListener, Stream = TcpStream>
    + RandomSource
    + AllocGlobal
    + Copy
    + Drop
    + Send
    + Sync {}

impl<R> ServerRuntime for R
where
    R: Threads
        + Wait
        + Clock
        + Net<Listener = TcpListener, Stream = TcpStream>
        + RandomSource
        + AllocGlobal
        + Copy
        + Drop
        + Send
        + Sync,
{}

/// What the requests of a connection are answered on: as [`ServerRuntime`], without what starts threads.
pub trait ConnectionRuntime: Wait + Clock + Net + AllocGlobal + Copy + Drop {}

impl<R> ConnectionRuntime for R
where
    R: Wait + Clock + Net + AllocGlobal + Copy + Drop,
{}
