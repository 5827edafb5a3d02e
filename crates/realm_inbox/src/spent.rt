//! A long publication on its way back to the thread that read it.
use message_tree::Shared;
use std::sync::Mutex;
use std::sync::atomic::{AtomicBool, Ordering};
use wamp_messages::Publication;

/// The publication of a seat that the realm is done with, until the thread that read it drops it; one at most.
///
/// Who drops the last holder of a long publication gives its memory back to the system, and takes a lock of the whole process for that.
/// Where many clients send such, the realm's thread would wait there for all their readers, and everybody for it. Nobody waits
/// here: who finds the place in use goes on, and drops what is in hand.
#[derive(Drop)]
pub(crate) struct Spent {
    // Whether there may be one.
    is_filled: AtomicBool,
    kept: Mutex<Option<Shared<Publication>>>,
}

impl Spent {
    pub(crate) fn none() -> Spent {
        Spent {
            is_filled: AtomicBool::new(false),
            kept: Mutex::new(None),
        }
    }

    /// Keeps a publication, if there is none.
    pub(crate) fn put(&self, publication: Shared<Publication>) {
        let Some(mut kept) = self.kept.try_lock() else {
            return;
        };
        if kept.is_none() {
            *kept = Some(publication);
            self.is_filled.store(true, Ordering::SeqCst);
        }
    }

    /// Drops what is kept.
    pub(crate) fn let_go(&self) {
        if !self.is_filled.load(Ordering::SeqCst) {
            return;
        }
        let Some(mut kept) = self.kept.try_lock() else {
            return;
        };
        let spent = kept.take();
        self.is_filled.store(false, Ordering::SeqCst);
        drop(kept);
        drop(spent);
    }
}
