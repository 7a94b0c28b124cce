use crate::clients::{OK, asked, is_told, limits, serve_by_counters};
use crate::responders::{Counter, Ear, crew_of_counters};
use std::net::{Ipv4Addr, TcpListener};
use std::test::Fail;
use std::thread;

// That a listener ends, and that each client is answered: no clause says so.

fn all_answered(counters: &[Counter]) -> u32 {
    let mut all = 0u32;
    for counter in counters {
        all = all.saturating_add(counter.answered);
    }
    all
}

// Two event loops, two threads beside them, and two clients in threads of their own: each is answered, and all four
// responders come back.
#[test]
fn two_clients_and_an_end(rt: HostRuntime) -> Result<(), Fail> {
    let alloc = rt.alloc();
    let listener = TcpListener::bind(&rt, (Ipv4Addr::LOCALHOST, 0))?;
    let address = listener.local_addr()?;
    let workers = crew_of_counters(alloc, 2, u32::MAX)?;
    let mut ear = Ear::new(alloc)?;
    let (served, told) = thread::join(
        &rt,
        || {
            thread::join(
                &rt,
                || asked(&rt, alloc, address, "/x"),
                || asked(&rt, alloc, address, "/x"),
            )
        },
        || serve_by_counters(&rt, &listener, workers, limits(Some(2)), &mut ear),
    );
    assert!(rt; is_told(&served.0, OK) && is_told(&served.1, OK));
    match told {
        Ok(workers) => {
            assert_eq!(rt; workers.len(), 4);
            assert_eq!(rt; all_answered(workers.as_slice()), 2);
        }
        Err(_error) => assert!(rt; false),
    }
    assert_eq!(rt; ear.told, 1);
    Ok(())
}

// A worker that wants no more requests after the first one: that one is answered, and the listener ends.
#[test]
fn ended_by_a_responder(rt: HostRuntime) -> Result<(), Fail> {
    let alloc = rt.alloc();
    let listener = TcpListener::bind(&rt, (Ipv4Addr::LOCALHOST, 0))?;
    let address = listener.local_addr()?;
    let workers = crew_of_counters(alloc, 2, 1)?;
    let mut ear = Ear::new(alloc)?;
    let (told, served) = thread::join(
        &rt,
        || asked(&rt, alloc, address, "/x"),
        || serve_by_counters(&rt, &listener, workers, limits(None), &mut ear),
    );
    assert!(rt; is_told(&told, OK));
    match served {
        Ok(workers) => assert_eq!(rt; all_answered(workers.as_slice()), 1),
        Err(_error) => assert!(rt; false),
    }
    Ok(())
}
