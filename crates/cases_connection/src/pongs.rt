//! A thread posts PINGs, and another writes their PONGs.
ghost use Rattle.std.specs.Prelude.{◌≡◌, ◌+◌, ◌∷◌, ◌++◌, [], MatchResult, false};
ghost use Rattle.ghost_state.specs.GhostList.{items_of};
ghost use Rattle.realm_inbox.specs.Joins.{is_join};
ghost use Rattle.realm_inbox.specs.Posted.{with_acts};
ghost use Rattle.cases_connection.specs.Outside.{outside};

use crate::acts::Nowhere;
use case_text::{Work, line_of, start};
use connection::{OwedPongs, PongPoster, Watch, share_pongs};
use ghost_state::{GhostCount, GhostList};
use message_tree::Octets;
use realm_inbox::{Act, Posting};
use session::Item;
use std::alloc::{AllocError, Global};
use std::io;
use std::snapshot::Snapshot;
use std::sync::atomic::{AtomicU64, Ordering};
use std::sync::{Arc, Wait};
use std::thread::Threads;

/// How often it is looked whether more is posted that isn't to be.
const LOOKS: u64 = 2_000_000;

/// Counts what is posted, keeps none of it, and tells of it once who receives is woken.
#[derive(Drop)]
pub struct Counter {
    // They take no bytes.
    acts: GhostList<Act<Nowhere>>,
    weights: GhostList<usize>,
    returned: GhostCount,
    posted: u64,
    count: Arc<AtomicU64>,
}

impl Posting<Nowhere> for Counter {
    ghost posted = { λ c. outside (items_of c.acts) };

    ghost weights = { λ c. items_of c.weights };

    ghost returned = { λ c. c.returned };

    fn post<R: Wait>(
        &mut self,
        _rt: &R,
        act: Act<Nowhere>,
        octets: usize,
    ) -> Result<(), Act<Nowhere>>
        requires { is_join act ≡ false }
        ensures posted { MatchResult result (λ _. outside (items_of self.new.acts)
            ≡ with_acts (outside (items_of self.old.acts)) (act ∷ [])) (λ back. (back ≡ act)
            × (outside (items_of self.new.acts) ≡ outside (items_of self.old.acts))) }
        ensures weighed { MatchResult result
            (λ _. items_of self.new.weights ≡ items_of self.old.weights ++ octets ∷ [])
            (λ _. items_of self.new.weights ≡ items_of self.old.weights) }
        ensures returned { MatchResult result (λ _. self.new.returned ≡ self.old.returned)
            (λ _. self.new.returned ≡ self.old.returned + 1) }
    {
        self.weights.add(Snapshot::of(&octets));
        self.acts.add(Snapshot::of(&act));
        self.posted = self.posted.wrapping_add(1);
        Ok(())
    }

    fn rouse(&self) {
        self.count.store(self.posted, Ordering::SeqCst);
    }
}

/// Who posts so many PINGs of so many octets.
#[derive(Drop)]
pub struct Pinger {
    poster: PongPoster<Counter>,
    count: u64,
    octets: usize,
    alloc: Global,
}

fn zeros(alloc: Global, octets: usize) -> Result<Octets, AllocError> {
    let octets = vec![in alloc; 0u8; octets]?;
    Ok(Octets::from_vec(octets))
}

impl<R: Wait + Copy> Work<R, bool> for Pinger {
    /// Posts them. False where memory was refused.
    fn run(self, rt: R) -> bool {
        let Pinger {
            mut poster,
            count,
            octets,
            alloc,
        } = self;
        for _ in 0..count {
            let Ok(payload) = zeros(alloc, octets) else {
                return false;
            };
            let _ = poster.post(&rt, Act::Ping(payload), octets);
        }
        poster.rouse();
        true
    }
}

/// What is done with PONGs.
#[derive(Clone, Copy, Drop)]
pub struct Deal {
    /// So many PINGs come.
    count: u64,
    octets: usize,
    /// So many of them are posted at first.
    first: u64,
    /// Then so many PONGs are written.
    written: u64,
    /// So many PINGs are posted then.
    second: u64,
}

impl Deal {
    /// The deal that a line names by its five numbers.
    pub fn of(text: &str) -> Option<Deal> {
        let mut words = text.split(' ');
        Some(Deal {
            count: words.next()?.parse::<u64>().ok()?,
            octets: words.next()?.parse::<usize>().ok()?,
            first: words.next()?.parse::<u64>().ok()?,
            written: words.next()?.parse::<u64>().ok()?,
            second: words.next()?.parse::<u64>().ok()?,
        })
    }
}

// Waits until so many are posted, and looks then whether more are. How many they are.
fn posted<R: Wait>(rt: &R, count: &AtomicU64, least: u64) -> u64 {
    for _ in rt.forever() {
        if count.load(Ordering::SeqCst) >= least {
            break;
        }
    }
    for _ in 0..LOOKS {
        if count.load(Ordering::SeqCst) > least {
            break;
        }
    }
    count.load(Ordering::SeqCst)
}

// Writes so many PONGs of so many octets.
fn write_pongs(alloc: Global, owed: &mut OwedPongs, deal: Deal) -> Result<(), AllocError> {
    for _ in 0..deal.written {
        owed.writes(&Item::Pong(zeros(alloc, deal.octets)?));
    }
    Ok(())
}

/// How many PINGs are posted at first, how many once PONGs are written, and how many in all, once their writer has ended.
pub fn hold_back<R: Threads + Wait + Copy + Send + 'static>(
    rt: R,
    alloc: Global,
    text: &str,
) -> io::Result<String> {
    let Some(deal) = Deal::of(text) else {
        return line_of(alloc, "no five numbers");
    };
    let (pongs, mut owed) = share_pongs(alloc)?;
    let count = Arc::new(alloc, AtomicU64::new(0))?;
    let counter = Counter {
        acts: GhostList::new(),
        weights: GhostList::new(),
        returned: GhostCount::new(),
        posted: 0,
        count: Arc::try_clone(&count)?,
    };
    let pinger = Pinger {
        poster: PongPoster {
            pongs,
            poster: counter,
        },
        count: deal.count,
        octets: deal.octets,
        alloc,
    };
    let thread = start(rt, pinger)?;
    let first = posted(&rt, &count, deal.first);
    write_pongs(alloc, &mut owed, deal)?;
    let second = posted(&rt, &count, deal.second);
    drop(owed);
    if !thread.join(&rt) {
        Err(AllocError)?;
    }
    let all = count.load(Ordering::SeqCst);
    Ok(format!(in alloc; "{first} posted, then {second}, and {all} once nobody writes\n")?)
}
