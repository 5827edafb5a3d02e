//! What the receiving end tells the posters, and whose turn it is.
use crate::backlog::Backlog;
use crate::letter::Post;
use crate::post_kind::{PostKind, kind_of, octets_of};
use crate::room_bell::RoomBell;
use crate::schedule::{Schedule, TOLD_AT_ONCE};
use crate::seat_lines::SeatLines;
use crate::transport::Shut;
use crossbeam_utils::sync::Parker;
use std::sync::{Arc, Wait};

/// How many posts are given before those who wait for room are woken: so that they find room for many at once.
const UNRUNG: u32 = 256;

/// What the receiving end keeps beside the posts. Nothing is promised of it.
#[derive(Drop)]
pub(crate) struct SeatTurns {
    pub(crate) schedule: Schedule,
    pub(crate) room: Arc<RoomBell>,
    // Of each seat.
    pub(crate) backlogs: Vec<Arc<Backlog>>,
    // How many posts were given since who waits for room was woken.
    pub(crate) unrung: u32,
}

impl SeatTurns {
    /// Wakes all who wait for room: the receiving end has nothing else to do.
    pub(crate) fn ring(&self) {
        self.room.ring();
    }

    /// Wakes some who wait for room.
    pub(crate) fn ring_for_some(&self) {
        self.room.ring_for_some();
    }

    /// Says that the receiving end is about to sleep; or, where it has said so and looked once more, sleeps. Whether it has said so
    /// and not slept since.
    pub(crate) fn rest<R: Wait>(&self, rt: &R, parker: &Parker, is_announced: bool) -> bool {
        if !is_announced {
            self.room.begin_sleep();
            return true;
        }
        parker.park(rt);
        false
    }

    /// Whether posts are given as they come: none was dear of late, and nobody waits, in a line or for room.
    pub(crate) fn is_calm<S: Shut>(&self, lines: &SeatLines<S>) -> bool {
        self.schedule.is_calm() && lines.is_idle() && !self.room.is_awaited()
    }

    /// A post of a place is given: the seat is told in portions, and so is who waits for room. Behind a client's last post nobody
    /// takes on what is next, so that what was handed back is dropped here.
    pub(crate) fn note_given<S: Shut>(&mut self, place: u64, post: &Post<S>) {
        let kind = kind_of(post);
        if self.schedule.note_given(place, kind, octets_of(post)) {
            self.tell(place);
        }
        if kind == PostKind::Last {
            self.let_go(place);
        }
        self.unrung = self.unrung.saturating_add(1);
        if self.unrung >= UNRUNG {
            self.unrung = 0;
            self.room.ring_for_some();
        }
    }

    // Drops what was handed back to a seat.
    fn let_go(&self, place: u64) {
        if place == 0 {
            return;
        }
        if let Some(backlog) = self.backlogs.get((place - 1) as usize) {
            backlog.let_go();
        }
    }

    // Tells a seat of posts that were given.
    fn tell(&self, place: u64) {
        if place == 0 {
            return;
        }
        if let Some(backlog) = self.backlogs.get((place - 1) as usize) {
            backlog.tell_given(u64::from(TOLD_AT_ONCE));
        }
    }

    /// How many posts wait to be given, of all seats.
    pub(crate) fn posts_waiting(&self) -> u64 {
        let mut all: u64 = 0;
        let mut place: u64 = 0;
        for backlog in &self.backlogs {
            place = place.wrapping_add(1);
            let waiting = backlog.posts_waiting();
            all = all.saturating_add(waiting.saturating_sub(self.schedule.untold(place)));
        }
        all
    }

    /// The place whose post is next: the one whose turn it is goes on, if it has another post.
    pub(crate) fn next_place<S: Shut>(&mut self, lines: &SeatLines<S>) -> u64 {
        if let Some(place) = self.schedule.turn() {
            if lines.waits_at(place) {
                return place;
            }
        }
        let place = lines.next_place(&mut self.schedule);
        self.schedule.begin_turn(place);
        place
    }

    /// Nobody gives anything back any more, and there is no room for anybody: who waits goes on.
    pub(crate) fn close(&self) {
        self.ring();
        for backlog in &self.backlogs {
            backlog.close();
        }
    }
}
