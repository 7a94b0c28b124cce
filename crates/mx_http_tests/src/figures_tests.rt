use crate::clients::{limits, serve_by_keepers};
use crate::gates::{Gate, crew_of_keepers};
use crate::responders::Ear;
use mx_http::{ConnectionFigures, ConnectionWatch, ListenerHandle};
use std::alloc::Global;
use std::io::{self, Read, Write};
use std::net::{Ipv4Addr, Net, SocketAddr, TcpListener, TcpStream};
use std::sync::atomic::Ordering;
use std::sync::{Arc, OnceLock, Wait};
use std::test::Fail;
use std::thread;
use std::time::{Clock, Duration};

// That the figures of connections are what these do: no clause says so.

// For how many milliseconds figures are waited for.
const MOMENTS: u32 = 10_000;

fn of_idle(idle: u64) -> ConnectionFigures {
    ConnectionFigures {
        idle,
        slow: 0,
        busy: 0,
        held_bytes: 0,
    }
}

fn of_slow(slow: u64) -> ConnectionFigures {
    ConnectionFigures { slow, ..of_idle(0) }
}

fn of_busy(busy: u64) -> ConnectionFigures {
    ConnectionFigures { busy, ..of_idle(0) }
}

// Whether these figures are told soon.
fn are_told<R: Wait + Clock>(rt: &R, watch: &ConnectionWatch, wanted: ConnectionFigures) -> bool {
    for _ in 0..MOMENTS {
        if watch.figures(rt) == wanted {
            return true;
        }
        thread::sleep(rt, Duration::from_millis(1));
    }
    false
}

// What the connections of a listener do, once that takes them in.
fn watch_of<C: Clock>(clock: &C, heard: &OnceLock<ListenerHandle>) -> io::Result<ConnectionWatch> {
    for _ in 0..MOMENTS {
        if let Some(handle) = heard.get() {
            return Ok(handle.connections.another()?);
        }
        thread::sleep(clock, Duration::from_millis(1));
    }
    Err(io::Error::from(io::ErrorKind::TimedOut))
}

// A client whose connection is idle, then slow, then busy until the gate opens, and then closed. Whether it was told to be
// each of these.
fn are_all_told<R: Wait + Clock + Net<Stream = TcpStream>>(
    rt: &R,
    alloc: Global,
    address: SocketAddr,
    heard: &OnceLock<ListenerHandle>,
    gate: &Gate,
) -> io::Result<bool> {
    let watch = watch_of(rt, heard)?;
    let mut told = are_told(rt, &watch, of_idle(0));
    let mut stream = TcpStream::connect(rt, address)?;
    told &= are_told(rt, &watch, of_idle(1));
    stream.write_all(b"GET /gate HTTP/1.1\r\n")?;
    told &= are_told(rt, &watch, of_slow(1));
    stream.write_all(b"Host: x\r\nConnection: close\r\n\r\n")?;
    told &= are_told(rt, &watch, of_busy(1));
    gate.is_open.store(true, Ordering::SeqCst);
    let mut reply = Vec::new(alloc);
    stream.read_to_end(&mut reply)?;
    told &= are_told(rt, &watch, of_idle(0));
    Ok(told)
}

#[test]
fn idle_and_slow_and_busy(rt: HostRuntime) -> Result<(), Fail> {
    let alloc = rt.alloc();
    let listener = TcpListener::bind(&rt, (Ipv4Addr::LOCALHOST, 0))?;
    let address = listener.local_addr()?;
    let gate = Arc::new(alloc, Gate::new())?;
    let keepers = crew_of_keepers(alloc, &gate)?;
    let mut ear = Ear::new(alloc)?;
    let heard = Arc::try_clone(&ear.heard)?;
    let (told, served) = thread::join(
        &rt,
        || are_all_told(&rt, alloc, address, &heard, &gate),
        || serve_by_keepers(&rt, &listener, keepers, limits(Some(1)), &mut ear),
    );
    assert!(rt; told?);
    assert!(rt; served.is_ok());
    Ok(())
}
