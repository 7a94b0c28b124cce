use crate::clients::serve_by_counters;
use crate::responders::{Ear, LONG, crew_of_counters};
use mx_http::Limits;
use std::alloc::{AllocGlobal, Global};
use std::io::{self, Read, Write};
use std::net::{Ipv4Addr, Net, SocketAddr, TcpListener, TcpStream};
use std::test::Fail;
use std::thread;
use std::time::Duration;

// That long replies wait for one another, and come whole: no clause says so.

const REQUEST: &[u8] = b"GET /long HTTP/1.1\r\nHost: x\r\nConnection: close\r\n\r\n";

// A total that each long reply is longer than.
fn limits() -> Limits {
    Limits {
        connections: 2,
        body: 8,
        memory: LONG / 3,
        idle: Duration::from_secs(60),
        head: Duration::from_secs(60),
        quiet: Duration::from_secs(60),
        stop_after: Some(2),
    }
}

// Whether a client is told a long reply, all of it.
fn is_told<N: Net<Stream = TcpStream>>(
    net: &N,
    alloc: Global,
    address: SocketAddr,
) -> io::Result<bool> {
    let mut stream = TcpStream::connect(net, address)?;
    stream.write_all(REQUEST)?;
    let mut told = Vec::new(alloc);
    stream.read_to_end(&mut told)?;
    let bytes = told.iter().filter(|byte| **byte == b'#').count();
    Ok(told.starts_with(b"HTTP/1.1 200 OK\r\n") && bytes == LONG)
}

// Two workers, and two clients that ask at once for replies longer than the total: each gets all of its reply.
#[test]
fn two_replies_longer_than_the_total(rt: HostRuntime) -> Result<(), Fail> {
    let alloc = rt.alloc();
    let listener = TcpListener::bind(&rt, (Ipv4Addr::LOCALHOST, 0))?;
    let address = listener.local_addr()?;
    let workers = crew_of_counters(alloc, 2, u32::MAX)?;
    let mut ear = Ear::new(alloc)?;
    let (told, served) = thread::join(
        &rt,
        || {
            thread::join(
                &rt,
                || is_told(&rt, alloc, address),
                || is_told(&rt, alloc, address),
            )
        },
        || serve_by_counters(&rt, &listener, workers, limits(), &mut ear),
    );
    assert!(rt; told.0? && told.1?);
    assert!(rt; served.is_ok());
    Ok(())
}
