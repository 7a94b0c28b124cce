use crate::clients::{NOT_FOUND, OK, asked, is_told, limits, sent, serve_by_keepers};
use crate::gates::{Gate, GateKeeper, crew_of_keepers, wait_until};
use crate::responders::Ear;
use std::net::{Ipv4Addr, TcpListener};
use std::sync::Arc;
use std::test::Fail;
use std::thread;

// That a request which waits holds up no other one: no clause says so. One event loop has all connections.

fn all_answered(keepers: &[GateKeeper]) -> u32 {
    let mut all = 0u32;
    for keeper in keepers {
        all = all.saturating_add(keeper.answered);
    }
    all
}

// While a request waits for a gate, one that is refused and one that goes to another shard are answered: the latter opens the
// gate, so that nothing would end else.
#[test]
fn beside_a_request_that_waits(rt: HostRuntime) -> Result<(), Fail> {
    let alloc = rt.alloc();
    let listener = TcpListener::bind(&rt, (Ipv4Addr::LOCALHOST, 0))?;
    let address = listener.local_addr()?;
    let gate = Arc::new(alloc, Gate::new())?;
    let keepers = crew_of_keepers(alloc, &gate)?;
    let mut ear = Ear::new(alloc)?;
    let (told, served) = thread::join(
        &rt,
        || {
            thread::join(
                &rt,
                || asked(&rt, alloc, address, "/gate"),
                || {
                    wait_until(&rt, &gate.is_reached);
                    let refused = asked(&rt, alloc, address, "/x");
                    (refused, asked(&rt, alloc, address, "/opener"))
                },
            )
        },
        || serve_by_keepers(&rt, &listener, keepers, limits(Some(3)), &mut ear),
    );
    assert!(rt; is_told(&told.0, OK));
    assert!(rt; is_told(&told.1.0, NOT_FOUND) && is_told(&told.1.1, OK));
    match served {
        Ok(keepers) => assert_eq!(rt; all_answered(keepers.as_slice()), 2),
        Err(_error) => assert!(rt; false),
    }
    Ok(())
}

// While a request waits for a gate, another one that claims the same comes, and its client goes away: nobody holds that one
// any more although the gate is still closed, and it is never answered.
#[test]
fn left_by_its_client(rt: HostRuntime) -> Result<(), Fail> {
    let alloc = rt.alloc();
    let listener = TcpListener::bind(&rt, (Ipv4Addr::LOCALHOST, 0))?;
    let address = listener.local_addr()?;
    let gate = Arc::new(alloc, Gate::new())?;
    let keepers = crew_of_keepers(alloc, &gate)?;
    let mut ear = Ear::new(alloc)?;
    let (told, served) = thread::join(
        &rt,
        || {
            thread::join(
                &rt,
                || asked(&rt, alloc, address, "/gate"),
                || {
                    wait_until(&rt, &gate.is_reached);
                    drop(sent(&rt, address, "/gate"));
                    wait_until(&rt, &gate.is_left);
                    asked(&rt, alloc, address, "/opener")
                },
            )
        },
        || serve_by_keepers(&rt, &listener, keepers, limits(Some(3)), &mut ear),
    );
    assert!(rt; is_told(&told.0, OK) && is_told(&told.1, OK));
    match served {
        Ok(keepers) => assert_eq!(rt; all_answered(keepers.as_slice()), 2),
        Err(_error) => assert!(rt; false),
    }
    Ok(())
}
