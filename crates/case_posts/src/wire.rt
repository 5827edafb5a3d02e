//! Transports that are only flags.
use realm_inbox::Shut;
use std::alloc::{AllocError, Global};
use std::sync::Arc;
use std::sync::atomic::{AtomicBool, Ordering};

/// A handle to a transport, which is shut once its flag is set.
#[derive(Drop)]
pub struct Wire {
    flag: Arc<AtomicBool>,
}

impl Wire {
    /// A transport that isn't shut.
    pub fn new(alloc: Global) -> Result<Wire, AllocError> {
        Ok(Wire {
            flag: Arc::new(alloc, AtomicBool::new(false))?,
        })
    }

    /// A second handle to the same transport.
    pub fn again(&self) -> Result<Wire, AllocError> {
        Ok(Wire {
            flag: Arc::try_clone(&self.flag)?,
        })
    }

    /// Whether it was shut.
    pub fn is_shut(&self) -> bool {
        self.flag.load(Ordering::SeqCst)
    }
}

impl Shut for Wire {
    fn shut(&self) {
        self.flag.store(true, Ordering::SeqCst);
    }

    fn twin(&self) -> Option<Wire> {
        self.again().ok()
    }
}
