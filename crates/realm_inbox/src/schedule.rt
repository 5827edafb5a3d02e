//! Whose turn it is.
use crate::post_kind::PostKind;
use std::alloc::{AllocError, Global};
use wamp_ids::SEATS;

/// Nanoseconds between two looks at the clock, or more, in which the post of a seat was dear.
const DEAR: u64 = 200_000;

/// A seat whose posts take less is looked at once in [`RARELY`] posts.
const CHEAP: u64 = 20_000;

/// How many posts are given between two looks at the clock, while they are cheap.
const RARELY: u32 = 4;

/// How many posts a turn has at most.
const MOST_OF_TURN: u32 = 64;

/// While posts are given as they come, a seat is billed no more at once than so many times what it took before: a look tells of several
/// seats' posts then, and of the time in which the system didn't let the thread run. So it is later, too, of what took less than
/// [`BY_CHANCE`].
const MOST_BILLED: u64 = 4;

/// What takes less may have taken it by chance: a page that had to be found, an interrupt. Where hundreds of seats wait, whoever is
/// billed for it waits until each of the others took as much.
const BY_CHANCE: u64 = 1_000_000;

/// Or no more than so many nanoseconds for each octet of its post, where they are counted: a search takes as long for a topic.
const MOST_OF_OCTET: u64 = 64;

/// How many posts of a seat are given before that is told. It is less than what is left where who waits goes on
/// (`RESUMED_POSTS`): so there is always a post that is still to be given, and then it is told.
pub(crate) const TOLD_AT_ONCE: u32 = 64;

/// What a seat took.
#[derive(Clone, Copy, Drop)]
struct Share {
    // Nanoseconds, on top of the floor that there was when it began to take them, or to wait.
    spent: u64,
    // What it was billed by the last look.
    last: u64,
    // The most of late.
    most: u64,
    // How many of its PUBLISHes were given.
    tried: u64,
    // How many of its posts were given and not told.
    untold: u32,
    // Whether posts of it waited when that was last asked.
    is_waiting: bool,
}

/// Which seat is next, where several wait: the one that has taken the least time, counting what its next post will probably take.
/// A seat that had nothing to do has no right to the time that it left to the others.
///
/// Nothing is promised of it: any order of the seats keeps each seat's own.
#[derive(Drop)]
pub(crate) struct Schedule {
    // Of each place from 0 to 256.
    shares: Vec<Share>,
    // The least time that a seat is counted that begins to wait: what the one has taken that has taken least of those who wait. While
    // nobody waits, it is what the one had taken that was billed last: so who was at work all day isn't behind who comes anew.
    floor: u64,
    // Whose post was given last, and how many octets of it are counted.
    place: u64,
    octets: u64,
    // How many posts are left of its turn.
    left: u32,
    // How many were given since the last look at the clock.
    unseen: u32,
    // The most that anybody was billed of late.
    dearest: u64,
    // Whether no post was dear since nobody waited.
    is_calm: bool,
}

impl Schedule {
    pub(crate) fn new(alloc: Global) -> Result<Schedule, AllocError> {
        let none = Share {
            spent: 0,
            last: 0,
            most: 0,
            tried: 0,
            untold: 0,
            is_waiting: false,
        };
        let shares = vec![in alloc; none; SEATS as usize + 1]?;
        Ok(Schedule {
            shares,
            floor: 0,
            place: 0,
            octets: 0,
            left: 0,
            unseen: 0,
            dearest: 0,
            is_calm: true,
        })
    }

    /// Whether no post was dear since nobody waited.
    pub(crate) fn is_calm(&self) -> bool {
        self.is_calm
    }

    /// Nobody waits any more: posts are given as they come, until one is dear.
    pub(crate) fn calm_down(&mut self) {
        self.is_calm = true;
    }

    /// The place whose turn goes on, if one has a turn. A stop has none: it comes behind all that waits at seats.
    pub(crate) fn turn(&self) -> Option<u64> {
        if self.left == 0 || self.place == 0 {
            None
        } else {
            Some(self.place)
        }
    }

    /// The time that a place has taken, of which posts wait. It doesn't change while they do: so who waits comes to its turn, once each
    /// of the others took as much.
    pub(crate) fn start_of(&mut self, place: u64) -> u64 {
        let floor = self.floor;
        let Some(share) = self.shares.get_mut(place as usize) else {
            return u64::MAX;
        };
        if !share.is_waiting {
            share.is_waiting = true;
            share.spent = share.spent.max(floor);
        }
        share.spent
    }

    /// No post of a place waits.
    pub(crate) fn sit_out(&mut self, place: u64) {
        if let Some(share) = self.shares.get_mut(place as usize) {
            share.is_waiting = false;
        }
    }

    /// Nobody who waits has taken less than so much.
    pub(crate) fn raise_floor(&mut self, least: u64) {
        self.floor = self.floor.max(least);
    }

    /// What the next post of a place will probably take, which is of this kind.
    pub(crate) fn probable(&self, place: u64, kind: PostKind) -> u64 {
        match self.shares.get(place as usize) {
            Some(share) => share.last.max(self.untried(share, kind)),
            None => 0,
        }
    }

    // What a post may take whose seat hasn't shown what its like take: as much as the dearest of anybody's of late. Of PUBLISHes that is
    // so once in as many as were given; a client's last post has none before it, and gives up all that its session held. So while
    // somebody is dear, who never published, or leaves, stands behind who is known to be cheap.
    fn untried(&self, share: &Share, kind: PostKind) -> u64 {
        match kind {
            PostKind::Publish => self.dearest / share.tried.max(1),
            PostKind::Last => self.dearest,
            PostKind::Other => 0,
        }
    }

    /// How many posts of a place were given and not told.
    pub(crate) fn untold(&self, place: u64) -> u64 {
        match self.shares.get(place as usize) {
            Some(share) => u64::from(share.untold),
            None => 0,
        }
    }

    /// A place gets its turn.
    pub(crate) fn begin_turn(&mut self, place: u64) {
        self.place = place;
        self.left = MOST_OF_TURN;
    }

    /// A post of a place is given, which was read from so many octets, or from fewer than are counted. Tells whether it is time to tell
    /// the seat of [`TOLD_AT_ONCE`] posts. Behind one whose octets are counted the clock is looked at: so no second one follows unseen.
    pub(crate) fn note_given(&mut self, place: u64, kind: PostKind, octets: u64) -> bool {
        self.place = place;
        self.octets = octets;
        self.left = self.left.saturating_sub(1);
        self.unseen = self
            .unseen
            .saturating_add(if octets == 0 { 1 } else { RARELY });
        let Some(share) = self.shares.get_mut(place as usize) else {
            return false;
        };
        match kind {
            PostKind::Publish => share.tried = share.tried.saturating_add(1),
            PostKind::Last => self.unseen = RARELY,
            PostKind::Other => {}
        }
        share.untold = share.untold.saturating_add(1);
        if share.untold < TOLD_AT_ONCE {
            return false;
        }
        share.untold = 0;
        true
    }

    /// Whether it is to be told how long the posts took that were given.
    pub(crate) fn is_due(&self) -> bool {
        !self.is_calm || self.unseen >= RARELY || self.last_cost() >= CHEAP
    }

    /// Whether the post that was given last is of a seat whose posts are dear.
    pub(crate) fn is_dear(&self) -> bool {
        self.last_cost() >= DEAR
    }

    // What the seat took by its last look, whose post was given last.
    fn last_cost(&self) -> u64 {
        match self.shares.get(self.place as usize) {
            Some(share) => share.last,
            None => 0,
        }
    }

    /// Whether a turn has just begun: its first post was given, and posts are given by turns.
    pub(crate) fn begins_turn(&self) -> bool {
        !self.is_calm && self.left == MOST_OF_TURN - 1
    }

    /// So many nanoseconds were worked since the last look, or since the turn began: the seat whose post was given last is billed for
    /// them. Tells whether that was dear.
    pub(crate) fn note_time(&mut self, nanos: u64) -> bool {
        self.unseen = 0;
        if let Some(share) = self.shares.get_mut(self.place as usize) {
            let billed = if self.is_calm || nanos < BY_CHANCE {
                nanos.min(
                    share
                        .most
                        .max(CHEAP)
                        .saturating_mul(MOST_BILLED)
                        .max(self.octets.saturating_mul(MOST_OF_OCTET)),
                )
            } else {
                nanos
            };
            if self.is_calm {
                share.spent = share.spent.max(self.floor);
                self.floor = share.spent;
            }
            share.spent = share.spent.saturating_add(billed);
            share.last = billed;
            share.most = billed.max(share.most - share.most / 8);
            self.dearest = billed.max(self.dearest - self.dearest / 8);
        }
        if nanos < DEAR {
            return false;
        }
        self.is_calm = false;
        self.left = 0;
        true
    }
}
