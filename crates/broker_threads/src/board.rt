//! What the log is told of each realm, from time to time.
use log_lines::RealmStats;
use realm_actor::Load;
use std::alloc::{AllocError, Global};
use std::sync::atomic::{AtomicBool, AtomicU64, Ordering};

/// What a realm's threads tell the one that writes the log. Each number is what its thread told last.
#[derive(Drop)]
pub struct Board {
    // Whether the actor is to tell anew, while it works: before it waits it does anyway.
    is_wanted: AtomicBool,
    sessions: AtomicU64,
    subscriptions: AtomicU64,
    retained: AtomicU64,
    retained_octets: AtomicU64,
    longest_outbox: AtomicU64,
    posts: AtomicU64,
    publications: AtomicU64,
    events: AtomicU64,
    cut: AtomicU64,
}

impl Board {
    /// Nothing is told yet.
    pub fn new() -> Board {
        Board {
            is_wanted: AtomicBool::new(false),
            sessions: AtomicU64::new(0),
            subscriptions: AtomicU64::new(0),
            retained: AtomicU64::new(0),
            retained_octets: AtomicU64::new(0),
            longest_outbox: AtomicU64::new(0),
            posts: AtomicU64::new(0),
            publications: AtomicU64::new(0),
            events: AtomicU64::new(0),
            cut: AtomicU64::new(0),
        }
    }

    /// The actor is to tell anew.
    pub fn want(&self) {
        self.is_wanted.store(true, Ordering::Relaxed);
    }

    /// Whether it is.
    pub fn is_wanted(&self) -> bool {
        self.is_wanted.load(Ordering::Relaxed)
    }

    /// How much the realm and its actor hold, and gave so far.
    pub fn put(&self, load: &Load) {
        self.is_wanted.store(false, Ordering::Relaxed);
        self.sessions
            .store(load.realm.sessions as u64, Ordering::Relaxed);
        self.subscriptions
            .store(load.realm.subscriptions as u64, Ordering::Relaxed);
        self.retained
            .store(load.realm.retained as u64, Ordering::Relaxed);
        self.retained_octets
            .store(load.realm.retained_octets, Ordering::Relaxed);
        self.see_outbox(load.longest_outbox);
        self.posts.store(load.posts_waiting, Ordering::Relaxed);
        self.publications
            .store(load.realm.publications, Ordering::Relaxed);
        self.events.store(load.realm.events, Ordering::Relaxed);
    }

    // So many items wait in the longest outbox now.
    fn see_outbox(&self, items: u64) {
        self.longest_outbox.fetch_max(items, Ordering::SeqCst);
    }

    /// A session was cut, as so many items waited in its outbox.
    pub fn note_cut(&self, items: u64) {
        self.see_outbox(items);
        self.cut.fetch_add(1, Ordering::SeqCst);
    }

    /// What was told, of publications, EVENTs and sessions that were cut all so far. Of outboxes it is the longest that was told since the
    /// last time: what waits in one is taken without the actor.
    pub fn so_far(&self) -> RealmStats {
        // Before its outbox is looked at: so the line that tells of a cut tells of that outbox too.
        let cut = self.cut.load(Ordering::SeqCst);
        RealmStats {
            sessions: self.sessions.load(Ordering::Relaxed),
            subscriptions: self.subscriptions.load(Ordering::Relaxed),
            retained: self.retained.load(Ordering::Relaxed),
            retained_octets: self.retained_octets.load(Ordering::Relaxed),
            longest_outbox: self.longest_outbox.swap(0, Ordering::SeqCst),
            posts: self.posts.load(Ordering::Relaxed),
            publications: self.publications.load(Ordering::Relaxed),
            events: self.events.load(Ordering::Relaxed),
            cut,
        }
    }
}

/// What there is now, and of what was done only what was done since.
pub fn since(now: RealmStats, before: &RealmStats) -> RealmStats {
    RealmStats {
        publications: now.publications.saturating_sub(before.publications),
        events: now.events.saturating_sub(before.events),
        cut: now.cut.saturating_sub(before.cut),
        ..now
    }
}

/// A board for each of so many realms.
pub fn boards_of(alloc: Global, realms: usize) -> Result<Vec<Board>, AllocError> {
    let mut boards = Vec::with_capacity(alloc, realms)?;
    for _ in 0..realms {
        boards.push(Board::new())?;
    }
    Ok(boards)
}
