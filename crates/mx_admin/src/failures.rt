// What failed, for who asks at the admin port.
use std::alloc::{AllocError, Global};
use std::sync::{Arc, Mutex, Wait};

/// The lines that told who runs the server of a file that has failed.
#[derive(Drop)]
pub struct Failures {
    text: Arc<Mutex<String>>,
}

impl Failures {
    /// Nothing failed.
    pub fn new(alloc: Global) -> Result<Failures, AllocError> {
        Ok(Failures {
            text: Arc::new(alloc, Mutex::new(String::new(alloc)))?,
        })
    }

    /// The same, for another thread.
    pub fn another(&self) -> Result<Failures, AllocError> {
        Ok(Failures {
            text: Arc::try_clone(&self.text)?,
        })
    }

    /// One more line, with its end. Where no memory is left for it, it is left out.
    pub(crate) fn add<R: Wait>(&self, rt: &R, line: &str) {
        let _ = self.text.lock(rt).push_str(line);
    }

    /// The lines so far; no text where nothing failed.
    pub fn text<R: Wait>(&self, rt: &R) -> Result<String, AllocError> {
        self.text.lock(rt).clone()
    }

    /// How many files have failed.
    pub fn count<R: Wait>(&self, rt: &R) -> u64 {
        let mut count = 0u64;
        let text = self.text.lock(rt);
        for byte in text.as_bytes() {
            if *byte == b'\n' {
                count = count.saturating_add(1);
            }
        }
        count
    }
}
