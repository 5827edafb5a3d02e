//! How much of a client waits for another thread, and how the client is held back while that is too much.
use crate::bells::Bells;
use crate::room_bell::RoomBell;
use crate::spent::Spent;
use message_tree::Shared;
use std::mem::size_of;
use std::sync::atomic::{AtomicBool, AtomicU64, Ordering};
use std::sync::{Arc, Wait};
use wamp_messages::Publication;

/// While so many octets of a client wait, or more, nothing more is taken on.
pub const MOST_WAITING: u64 = 4_194_304;

/// Who waits goes on once fewer octets than these are left: so there is room for several messages then, and they cost one wake.
const RESUMED: u64 = 2_097_152;

/// What was read from fewer octets isn't counted: so it costs one comparison. How many of those wait is bounded elsewhere, by the
/// capacity of what they wait in.
const LEAST_COUNTED: usize = 256;

/// What was read from so many octets is long: most of its memory is the system's own.
const LONG: u32 = 65_536;

/// So many posts of one seat wait at most, however few octets they are.
pub const MOST_POSTS_WAITING: u64 = 256;

/// Who waits for that goes on once so many wait, or fewer.
const RESUMED_POSTS: u64 = 128;

/// A seat tells once in so many posts how many it posted: each telling is a locked instruction.
const TOLD_POSTS: u64 = 16;

/// The octets of one client that wait for another thread. One thread takes them on, and others give them back.
///
/// Nothing is promised of it, as another thread may change it at any time. It is there to bound what one client can make the broker
/// keep: the thread that takes on waits while there is no room, and so reads no more of the client.
#[derive(Drop)]
pub struct Backlog {
    waiting: AtomicU64,
    // How many acts were posted at the seat, as far as it was told.
    posted: AtomicU64,
    // How many posts were given to who receives, as far as it was told.
    given: AtomicU64,
    is_closed: AtomicBool,
    bell: RoomBell,
    spent: Spent,
}

impl Backlog {
    /// Nothing waits.
    pub fn new() -> Backlog {
        Backlog {
            waiting: AtomicU64::new(0),
            posted: AtomicU64::new(0),
            given: AtomicU64::new(0),
            is_closed: AtomicBool::new(false),
            bell: RoomBell::new(),
            spent: Spent::none(),
        }
    }

    /// Counts what was read from so many octets, if they are 256 or more, and waits before while there is no room: so one thing of
    /// any size finds room. Once it is closed nobody waits.
    pub fn take_on<R: Wait>(&self, rt: &R, octets: usize) {
        if octets < LEAST_COUNTED {
            return;
        }
        self.spent.let_go();
        if self.is_laden() {
            self.wait(rt);
        }
        self.waiting.fetch_add(octets as u64, Ordering::SeqCst);
    }

    // Whether whoever takes something on waits before. Nobody else makes it so.
    fn is_laden(&self) -> bool {
        self.waiting.load(Ordering::SeqCst) >= MOST_WAITING
    }

    // Waits for room. It listens, and only then looks: so where it finds no room, whoever makes it, or closes, does so after the look,
    // and rings then.
    fn wait<R: Wait>(&self, rt: &R) {
        for _ in rt.forever() {
            let heard = self.bell.listen();
            let is_closed = self.is_closed.load(Ordering::SeqCst);
            if is_closed || self.waiting.load(Ordering::SeqCst) < RESUMED {
                self.bell.leave(Some(heard));
                return;
            }
            self.bell.wait(rt, heard);
        }
    }

    /// What was read from so many octets, and was taken on, waits no longer.
    pub fn give_back(&self, octets: usize) {
        if octets < LEAST_COUNTED {
            return;
        }
        let before = self.waiting.fetch_sub(octets as u64, Ordering::SeqCst);
        if before.saturating_sub(octets as u64) < RESUMED {
            self.bell.ring();
        }
    }

    /// How many posts were given, as far as it was told; waits before while too many of those that were posted weren't. Once it is
    /// closed nobody waits.
    fn await_given<R: Wait>(&self, rt: &R, posted: u64) -> u64 {
        for _ in rt.forever() {
            let heard = self.bell.listen();
            let given = if self.is_closed.load(Ordering::SeqCst) {
                posted
            } else {
                self.given.load(Ordering::SeqCst)
            };
            if posted.wrapping_sub(given) <= RESUMED_POSTS {
                self.bell.leave(Some(heard));
                return given;
            }
            self.bell.wait(rt, heard);
        }
        unreachable!()
    }

    /// How many posts wait to be given, as far as it was told.
    pub(crate) fn posts_waiting(&self) -> u64 {
        let given = self.given.load(Ordering::SeqCst);
        self.posted.load(Ordering::SeqCst).saturating_sub(given)
    }

    /// So many posts more were given.
    pub(crate) fn tell_given(&self, more: u64) {
        self.given.fetch_add(more, Ordering::SeqCst);
        self.bell.ring();
    }

    /// Nobody gives anything back any more, and nobody waits any more: who waits goes on.
    pub fn close(&self) {
        self.is_closed.store(true, Ordering::SeqCst);
        self.bell.ring();
        self.spent.let_go();
    }

    /// Drops what was handed back.
    pub(crate) fn let_go(&self) {
        self.spent.let_go();
    }
}

/// How many acts were posted at a seat, and how many of them were given, as far as the seat knows.
#[derive(Drop)]
pub(crate) struct PostCount {
    posted: u64,
    given: u64,
}

impl PostCount {
    pub(crate) fn new() -> PostCount {
        PostCount {
            posted: 0,
            given: 0,
        }
    }

    /// Counts one post more, and waits before while [`MOST_POSTS_WAITING`] of the seat aren't given: by a receiving end that is awake.
    ///
    /// It looks at its own two numbers first: what others tell is read once in 128 posts.
    pub(crate) fn count_one<R: Wait>(&mut self, rt: &R, backlog: &Backlog, bells: &Bells) {
        if self.posted.wrapping_sub(self.given) >= MOST_POSTS_WAITING {
            self.given = backlog.given.load(Ordering::SeqCst);
        }
        if self.posted.wrapping_sub(self.given) >= MOST_POSTS_WAITING {
            bells.wake_receiver();
            self.given = backlog.await_given(rt, self.posted);
        }
        self.posted = self.posted.wrapping_add(1);
        if self.posted % TOLD_POSTS == 0 {
            backlog.posted.store(self.posted, Ordering::Relaxed);
        }
    }
}

/// What a post takes of its seat's backlog, until this is dropped.
///
/// It is of 16 octets: so a post is of 128 at most, which are moved by a few instructions, where more are by a call.
pub struct Weight {
    held: GivenBack,
}

// What is given back. Nothing of a post that isn't counted.
#[derive(Drop)]
enum GivenBack {
    Nothing,
    Octets(u32, Arc<Backlog>),
}

const _: () = prove!(size_of::<Weight>() == 16);

impl Weight {
    /// The weight of what was read from so many octets, once there is room for it: the receiving end is woken before a wait.
    pub(crate) fn of<R: Wait>(
        rt: &R,
        backlog: &Arc<Backlog>,
        bells: &Bells,
        octets: usize,
    ) -> Weight {
        if octets < LEAST_COUNTED {
            return Weight {
                held: GivenBack::Nothing,
            };
        }
        Weight {
            held: held_of(rt, backlog, bells, octets),
        }
    }

    /// How many octets are counted: 256 or more, or 0.
    pub(crate) fn octets(&self) -> u64 {
        match &self.held {
            GivenBack::Nothing => 0,
            GivenBack::Octets(octets, _) => u64::from(*octets),
        }
    }

    /// Hands a publication back that the realm is done with, which was read from the octets of this weight. A long one is dropped by
    /// the thread that read it, before it takes on what is next, or by the receiving end, when its client's last post is given.
    pub fn hand_back(&self, spent: Shared<Publication>) {
        if let GivenBack::Octets(octets, backlog) = &self.held {
            if *octets >= LONG {
                backlog.spent.put(spent);
            }
        }
    }
}

// So many octets, once there is room for them. Nothing where the count of those who share the backlog can't grow.
fn held_of<R: Wait>(rt: &R, backlog: &Arc<Backlog>, bells: &Bells, octets: usize) -> GivenBack {
    let Ok(backlog) = Arc::try_clone(backlog) else {
        return GivenBack::Nothing;
    };
    let octets = octets.min(u32::MAX as usize) as u32;
    if backlog.is_laden() {
        bells.wake_receiver();
    }
    backlog.take_on(rt, octets as usize);
    GivenBack::Octets(octets, backlog)
}

impl Drop for Weight {
    fn drop(self) {
        let Self { held } = self;
        if let GivenBack::Octets(octets, backlog) = held {
            backlog.give_back(octets as usize);
        }
    }
}
