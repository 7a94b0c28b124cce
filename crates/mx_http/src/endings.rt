// How the responders of a listener end it.
use std::alloc::{AllocError, Global};
use std::net::{Net, SocketAddr, TcpStream};
use std::sync::Arc;
use std::sync::atomic::{AtomicBool, Ordering};

/// Whether a listener is to end, to its responders and to who takes connections in.
#[derive(Drop)]
pub struct Ending {
    is_wanted: Arc<AtomicBool>,
    // Where the listener listens.
    address: SocketAddr,
}

impl Ending {
    /// The listener at this address is not to end.
    pub fn new(alloc: Global, address: SocketAddr) -> Result<Ending, AllocError> {
        Ok(Ending {
            is_wanted: Arc::new(alloc, AtomicBool::new(false))?,
            address,
        })
    }

    /// The same, to another responder, or to who takes connections in.
    pub fn another(&self) -> Result<Ending, AllocError> {
        Ok(Ending {
            is_wanted: Arc::try_clone(&self.is_wanted)?,
            address: self.address,
        })
    }

    pub fn is_wanted(&self) -> bool {
        self.is_wanted.load(Ordering::SeqCst)
    }

    /// The listener is to end. A connection that is opened and closed lets it see so where it waits for the next one.
    pub fn want<N: Net>(&self, net: &N) {
        if !self.is_wanted.swap(true, Ordering::SeqCst) {
            let _ = TcpStream::connect(net, self.address);
        }
    }
}
