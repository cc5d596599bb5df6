//! Sleep and wake.

use std::alloc::{AllocError, Global};
use std::sync::{Arc, Wait};
use std::thread::Parker;

/// What one thread sleeps on, and others wake it by. It keeps one ring, so that a ring that comes before the sleep ends
/// it.
#[derive(Drop)]
pub struct Bell {
    parker: Arc<Parker, Global>,
}

impl Bell {
    /// A bell that was not rung.
    ///
    /// # Errors
    /// The allocator has no memory left.
    pub fn new(alloc: Global) -> Result<Bell, AllocError> {
        Ok(Bell {
            parker: Arc::new(alloc, Parker::new())?,
        })
    }

    /// Another handle to the same bell, to be rung by another thread.
    ///
    /// # Errors
    /// There are too many handles.
    pub fn another(&self) -> Result<Bell, AllocError> {
        Ok(Bell {
            parker: Arc::try_clone(&self.parker)?,
        })
    }

    /// Rings it. The call takes no memory, and waits for no one.
    pub fn ring(&self) {
        self.parker.unpark();
    }

    /// Sleeps until it is rung, and takes the ring. One thread alone waits for a bell: of two, one may sleep for ever.
    pub fn wait<R: Wait>(&self, rt: &R) {
        self.parker.park(rt);
    }
}
