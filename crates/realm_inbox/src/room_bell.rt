//! How posters wait for room, and how they know whether the receiving end sleeps.
use std::sync::Wait;
use std::sync::atomic::{AtomicBool, AtomicU64, Ordering};

/// How many of those who wait are woken at once, while the receiving end has other work: woken together, hundreds would take the
/// processors from it, and all but the first few would find the inbox full again.
const WOKEN_AT_ONCE: u64 = 16;

/// Posters that find the inbox full wait at it, and the receiving end rings it once it has made room. A ring that nobody waits for is
/// no system call.
///
/// Nothing is promised of it, as another thread may ring at any time. But no ring is missed: a poster listens, then looks once more
/// whether the inbox is full, and only then waits. So where it was full at that look, room is made after it, and the ring that
/// follows is heard. A ring that comes earlier ends the wait at once. Those who have waited longest are woken first, and all before
/// the receiving end sleeps: so each is woken.
#[derive(Drop)]
pub(crate) struct RoomBell {
    // How often it was rung.
    rings: AtomicU64,
    // How many have listened, and neither waited to the end nor left.
    listeners: AtomicU64,
    // Whether the receiving end sleeps, or is about to.
    is_asleep: AtomicBool,
}

impl RoomBell {
    pub(crate) fn new() -> RoomBell {
        RoomBell {
            rings: AtomicU64::new(0),
            listeners: AtomicU64::new(0),
            is_asleep: AtomicBool::new(false),
        }
    }

    /// Announces a wait, and gives the count of rings that it is to begin with.
    ///
    /// The count is read before the announcement. Read after it, it might hold a ring for which the room was taken by others: then
    /// the wait would sleep on, though it was rung for.
    pub(crate) fn listen(&self) -> u64 {
        let heard = self.rings.load(Ordering::SeqCst);
        self.listeners.fetch_add(1, Ordering::SeqCst);
        heard
    }

    /// Takes an announcement back, if there was one: there is no wait.
    pub(crate) fn leave(&self, heard: Option<u64>) {
        if heard.is_some() {
            self.listeners.fetch_sub(1, Ordering::SeqCst);
        }
    }

    /// Waits until it was rung after that count. A sleep compares its low 32 bits alone.
    pub(crate) fn wait<R: Wait>(&self, rt: &R, heard: u64) {
        for _ in rt.forever() {
            if self.rings.load(Ordering::SeqCst) != heard {
                break;
            }
            self.rings.park(rt, (heard & 0xffff_ffff) as u32);
        }
        self.listeners.fetch_sub(1, Ordering::SeqCst);
    }

    /// Whether somebody waits, or is about to.
    pub(crate) fn is_awaited(&self) -> bool {
        self.listeners.load(Ordering::SeqCst) != 0
    }

    /// Says that the receiving end is about to sleep. It has to look once more behind this, and only then sleeps: a post that this
    /// look misses was sent behind the announcement, so its sender finds it, and wakes.
    pub(crate) fn begin_sleep(&self) {
        self.is_asleep.store(true, Ordering::SeqCst);
    }

    /// The receiving end is awake, and nobody need wake it.
    pub(crate) fn be_awake(&self) {
        if self.is_asleep.load(Ordering::SeqCst) {
            self.is_asleep.store(false, Ordering::SeqCst);
        }
    }

    /// Whether the receiving end is to be woken: true for one of those who ask while it sleeps.
    pub(crate) fn ends_sleep(&self) -> bool {
        self.is_asleep.load(Ordering::SeqCst) && self.is_asleep.swap(false, Ordering::SeqCst)
    }

    /// Ends the waits of all who have listened.
    pub(crate) fn ring(&self) {
        if self.is_awaited() {
            self.rings.fetch_add(1, Ordering::SeqCst);
            self.rings.wake_all();
        }
    }

    /// Ends the waits of some who have listened, of those first who have waited longest. The others have to be rung for later.
    pub(crate) fn ring_for_some(&self) {
        let listeners = self.listeners.load(Ordering::SeqCst);
        if listeners == 0 {
            return;
        }
        self.rings.fetch_add(1, Ordering::SeqCst);
        for _ in 0..listeners.min(WOKEN_AT_ONCE) {
            self.rings.wake_one();
        }
    }
}
