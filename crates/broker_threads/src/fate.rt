//! What the threads of a connection learn of its end.
use log_lines::Traffic;
use realm_inbox::Shut;
use session::Asked;
use std::alloc::{AllocError, Global};
use std::sync::atomic::{AtomicBool, AtomicU64, Ordering};
use std::sync::{Arc, Mutex, Wait};

/// What the threads of a connection, and its realm's actor, learn of its end, before they bring it about.
#[derive(Drop)]
pub struct Fate {
    is_admitted: AtomicBool,
    is_full: AtomicBool,
    is_lost: AtomicBool,
    is_unwritable: AtomicBool,
    // What its HELLO asked for, where that may have to be told.
    asked: Mutex<Option<Asked>>,
    // How many items its writer took so far.
    taken: AtomicU64,
    received: AtomicU64,
    events: AtomicU64,
    octets_in: AtomicU64,
    octets_out: AtomicU64,
    refused: AtomicU64,
}

impl Fate {
    /// Nothing happened so far.
    pub fn new() -> Fate {
        Fate {
            is_admitted: AtomicBool::new(false),
            is_full: AtomicBool::new(false),
            is_lost: AtomicBool::new(false),
            is_unwritable: AtomicBool::new(false),
            asked: Mutex::new(None),
            taken: AtomicU64::new(0),
            received: AtomicU64::new(0),
            events: AtomicU64::new(0),
            octets_in: AtomicU64::new(0),
            octets_out: AtomicU64::new(0),
            refused: AtomicU64::new(0),
        }
    }

    /// Keeps what its HELLO asked for, until that is taken.
    pub fn note_asked<R: Wait>(&self, rt: &R, asked: Asked) {
        *self.asked.lock(rt) = Some(asked);
    }

    /// What its HELLO asked for, where that was kept.
    pub fn take_asked<R: Wait>(&self, rt: &R) -> Option<Asked> {
        self.asked.lock(rt).take()
    }

    /// Its writer took so many items so far.
    pub fn note_taken(&self, taken: u64) {
        self.taken.store(taken, Ordering::Relaxed);
    }

    /// Its reader has ended: so many messages and PINGs, and octets, it read behind the opening.
    pub fn note_read(&self, received: u64, octets: u64) {
        self.received.store(received, Ordering::SeqCst);
        self.octets_in.store(octets, Ordering::SeqCst);
    }

    /// Its writer has ended: so many EVENTs, and octets, it wrote.
    pub fn note_written(&self, events: u64, octets: u64) {
        self.events.store(events, Ordering::SeqCst);
        self.octets_out.store(octets, Ordering::SeqCst);
    }

    /// What its session said and was sent, once both threads have ended.
    pub fn traffic(&self) -> Traffic {
        Traffic {
            received: self.received.load(Ordering::SeqCst),
            events: self.events.load(Ordering::SeqCst),
            octets_in: self.octets_in.load(Ordering::SeqCst),
            octets_out: self.octets_out.load(Ordering::SeqCst),
            refused: self.refused.load(Ordering::SeqCst),
        }
    }

    /// Its realm admitted its session.
    pub fn admit(&self) {
        self.is_admitted.store(true, Ordering::SeqCst);
    }

    /// Whether it did.
    pub fn is_admitted(&self) -> bool {
        self.is_admitted.load(Ordering::SeqCst)
    }

    /// Whether its outbox was found full.
    pub fn is_full(&self) -> bool {
        self.is_full.load(Ordering::SeqCst)
    }

    /// Whether its session was cut for want of memory.
    pub fn is_lost(&self) -> bool {
        self.is_lost.load(Ordering::SeqCst)
    }

    /// A write to it failed.
    pub fn fail_to_write(&self) {
        self.is_unwritable.store(true, Ordering::SeqCst);
    }

    /// Whether one did.
    pub fn is_unwritable(&self) -> bool {
        self.is_unwritable.load(Ordering::SeqCst)
    }
}

/// The handle of a stream, which marks the fate of its connection.
#[derive(Drop)]
pub struct Marked<S> {
    shut: S,
    fate: Arc<Fate>,
}

impl<S> Marked<S> {
    /// A handle, and the fate that it marks.
    ///
    /// # Errors
    /// [`AllocError`] where memory is refused.
    pub fn new(alloc: Global, shut: S) -> Result<(Marked<S>, Arc<Fate>), AllocError>
    where
        S: Drop,
    {
        let fate = Arc::new(alloc, Fate::new())?;
        let marked = Marked {
            shut,
            fate: Arc::try_clone(&fate)?,
        };
        Ok((marked, fate))
    }
}

impl<S: Shut> Shut for Marked<S> {
    fn shut(&self) {
        self.shut.shut();
    }

    fn twin(&self) -> Option<Marked<S>> {
        Some(Marked {
            shut: self.shut.twin()?,
            fate: Arc::try_clone(&self.fate).ok()?,
        })
    }

    fn note_full(&self) {
        self.fate.is_full.store(true, Ordering::SeqCst);
    }

    fn note_lost(&self) {
        self.fate.is_lost.store(true, Ordering::SeqCst);
    }

    fn note_refusal(&self) -> bool {
        self.fate.refused.fetch_add(1, Ordering::SeqCst) == 0
    }

    fn taken(&self) -> Option<u64> {
        Some(self.fate.taken.load(Ordering::Relaxed))
    }
}
