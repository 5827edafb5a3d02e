//! When the log tells of realms, and what.
use crate::board::{Board, since};
use log_lines::{RealmStats, stats};
use std::alloc::{AllocError, Global};
use std::time::{Clock, Duration};

/// How many milliseconds before a line the actors that work are asked to tell anew.
const ASKED_BEFORE: u64 = 50;

/// How often a log tells of realms, and of which.
#[derive(Drop)]
pub struct Telling {
    /// Seconds from one line to the next, from 1.
    pub seconds: u32,
    /// The names of the realms, in their order.
    pub realms: Vec<String>,
}

/// Tells of realms from time to time.
#[derive(Drop)]
pub(crate) struct Teller {
    telling: Telling,
    // What was told of each.
    before: Vec<RealmStats>,
    // When the next lines are due, since an arbitrary moment; nothing before it was first asked.
    due: Option<Duration>,
    // Whether the actors were asked to tell anew.
    has_asked: bool,
}

impl Teller {
    /// Nothing is told yet.
    pub fn new(alloc: Global, telling: Telling) -> Result<Teller, AllocError> {
        let mut before = Vec::with_capacity(alloc, telling.realms.len())?;
        for _ in 0..telling.realms.len() {
            before.push(Board::new().so_far())?;
        }
        Ok(Teller {
            telling,
            before,
            due: None,
            has_asked: false,
        })
    }

    // How long it is from one line to the next.
    fn interval(&self) -> Duration {
        Duration::from_secs(u64::from(self.telling.seconds.max(1)))
    }

    // When the next lines are due.
    fn due_from(&mut self, now: Duration) -> Duration {
        let due = match self.due {
            Some(due) => due,
            None => now.saturating_add(self.interval()),
        };
        self.due = Some(due);
        due
    }

    /// How long to wait at most until it is to be asked whether something is due.
    pub fn patience<R: Clock>(&mut self, rt: &R) -> Duration {
        let Ok(now) = rt.monotonic() else {
            return self.interval();
        };
        let left = self.due_from(now).saturating_sub(now);
        if self.has_asked {
            left
        } else {
            left.saturating_sub(Duration::from_millis(ASKED_BEFORE))
        }
    }

    /// Whether lines are due. The actors are asked to tell anew a little before that.
    pub fn is_due<R: Clock>(&mut self, rt: &R, boards: &[Board]) -> bool {
        let Ok(now) = rt.monotonic() else {
            return false;
        };
        let due = self.due_from(now);
        let early = due.saturating_sub(Duration::from_millis(ASKED_BEFORE));
        if !self.has_asked && early <= now {
            self.has_asked = true;
            for board in boards {
                board.want();
            }
        }
        if now < due {
            return false;
        }
        self.has_asked = false;
        self.due = Some(now.saturating_add(self.interval()));
        true
    }

    /// The line of the realm at this place.
    pub fn line(
        &mut self,
        alloc: Global,
        boards: &[Board],
        realm: usize,
    ) -> Result<Vec<u8>, AllocError> {
        let (Some(name), Some(board), Some(before)) = (
            self.telling.realms.get(realm),
            boards.get(realm),
            self.before.get_mut(realm),
        ) else {
            return Err(AllocError);
        };
        let now = board.so_far();
        let told = since(now, before);
        *before = now;
        stats(alloc, name.as_str(), &told)
    }
}
