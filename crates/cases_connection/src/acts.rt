//! What is posted, and in words.
ghost use Rattle.std.specs.Prelude.{◌≡◌, ◌+◌, ◌++◌, ◌∷◌, [], MatchResult, false};
ghost use Rattle.ghost_state.specs.GhostList.{items_of};
ghost use Rattle.realm_inbox.specs.Joins.{is_join};
ghost use Rattle.realm_inbox.specs.Posted.{with_acts};
ghost use Rattle.cases_connection.specs.Outside.{outside};

use case_text::spell;
use ghost_state::{GhostCount, GhostList};
use realm_inbox::{Act, Posting, Shut};
use session::{CarriedArgs, Said};
use std::alloc::{AllocError, Global};
use std::io;
use std::snapshot::Snapshot;
use std::sync::atomic::{AtomicU64, Ordering};
use std::sync::{Arc, Wait};

/// The most acts that a log has room for.
const ROOM: usize = 64;

/// A transport that is nowhere.
#[derive(Clone, Copy, Drop)]
pub struct Nowhere;

impl Shut for Nowhere {
    fn shut(&self) {}

    fn twin(&self) -> Option<Nowhere> {
        Some(*self)
    }
}

/// So many acts may be posted before who receives them is woken.
const MOST_ASLEEP: u64 = 32;

/// The acts that were posted, while there was room, and no more than 32 before a wake. Later ones come back.
#[derive(Drop)]
pub struct Log {
    acts: Vec<Act<Nowhere>>,
    // How many of them were posted since who receives was woken.
    asleep: Arc<AtomicU64>,
    room: usize,
    // The most octets that one of them counted for.
    heaviest: usize,
    // They take no bytes.
    weights: GhostList<usize>,
    returned: GhostCount,
}

impl Log {
    /// Room for so many acts, and for no more than 64.
    pub fn new(alloc: Global, room: usize) -> Result<Log, AllocError> {
        Ok(Log {
            acts: Vec::with_capacity(alloc, ROOM)?,
            asleep: Arc::new(alloc, AtomicU64::new(0))?,
            room: room.min(ROOM),
            heaviest: 0,
            weights: GhostList::new(),
            returned: GhostCount::new(),
        })
    }

    /// How many acts were posted since who receives was woken.
    pub fn asleep(&self) -> Result<Arc<AtomicU64>, AllocError> {
        Arc::try_clone(&self.asleep)
    }

    /// The acts for which who receives was woken, each in words behind a space.
    pub fn told(&self, alloc: Global) -> io::Result<String> {
        let mut words = String::new(alloc);
        let asleep = self.asleep.load(Ordering::SeqCst) as usize;
        for act in self
            .acts
            .iter()
            .take(self.acts.len().saturating_sub(asleep))
        {
            words.push_str("posted ")?;
            tell_act(&mut words, act)?;
            words.push('\n')?;
        }
        Ok(words)
    }

    /// The most octets that one of them counted for.
    pub fn heaviest(&self) -> usize {
        self.heaviest
    }

    /// How many they are.
    pub fn count(&self) -> usize {
        self.acts.len()
    }

    /// The arguments of what was published, where every serialization writes them.
    pub fn into_published(self, alloc: Global) -> Result<Vec<CarriedArgs>, AllocError> {
        let mut published = Vec::new(alloc);
        for act in self.acts {
            if let Some(args) = published_by(act) {
                published.push(args)?;
            }
        }
        Ok(published)
    }

    // Adds an act, where there is room.
    fn add(&mut self, act: Act<Nowhere>) -> Result<(), Act<Nowhere>>
        ensures added { MatchResult result
            (λ _. self.new.acts.items ≡ self.old.acts.items ++ act ∷ [])
            (λ back. (back ≡ act) × (self.new.acts.items ≡ self.old.acts.items)) }
        ensures same { (self.new.weights ≡ self.old.weights)
            × (self.new.returned ≡ self.old.returned) }
    {
        let is_late = self.asleep.load(Ordering::SeqCst) >= MOST_ASLEEP;
        if is_late || self.acts.len() >= self.room {
            return Err(act);
        }
        match self.acts.push(act) {
            Ok(()) => {
                self.asleep.fetch_add(1, Ordering::SeqCst);
                Ok(())
            }
            Err(refused) => Err(refused.value),
        }
    }
}

impl Posting<Nowhere> for Log {
    ghost posted = { λ l. outside l.acts.items };

    ghost weights = { λ l. items_of l.weights };

    ghost returned = { λ l. l.returned };

    fn post<R: Wait>(
        &mut self,
        _rt: &R,
        act: Act<Nowhere>,
        octets: usize,
    ) -> Result<(), Act<Nowhere>>
        requires { is_join act ≡ false }
        ensures posted { MatchResult result (λ _. outside self.new.acts.items
            ≡ with_acts (outside self.old.acts.items) (act ∷ [])) (λ back. (back ≡ act)
            × (outside self.new.acts.items ≡ outside self.old.acts.items)) }
        ensures weighed { MatchResult result
            (λ _. items_of self.new.weights ≡ items_of self.old.weights ++ octets ∷ [])
            (λ _. items_of self.new.weights ≡ items_of self.old.weights) }
        ensures returned { MatchResult result (λ _. self.new.returned ≡ self.old.returned)
            (λ _. self.new.returned ≡ self.old.returned + 1) }
    {
        self.heaviest = self.heaviest.max(octets);
        let posted = self.add(act);
        match &posted {
            Ok(()) => self.weights.add(Snapshot::of(&octets)),
            Err(_) => self.returned.tick(),
        }
        posted
    }

    fn rouse(&self) {
        self.asleep.store(0, Ordering::SeqCst);
    }
}

fn published_by(act: Act<Nowhere>) -> Option<CarriedArgs> {
    match act {
        Act::Said(Said::Publish(publish)) => CarriedArgs::of(publish.args).ok(),
        _ => None,
    }
}

fn tell_act(out: &mut String, act: &Act<Nowhere>) -> io::Result<()> {
    match act {
        Act::Join(_) => Ok(out.push_str("join")?),
        Act::Said(said) => tell_said(out, said),
        Act::Ping(octets) => {
            out.push_str("ping ")?;
            spell(out, octets.as_slice())
        }
        Act::Spoilt => Ok(out.push_str("spoilt")?),
        Act::Gone => Ok(out.push_str("gone")?),
    }
}

fn tell_said(out: &mut String, said: &Said) -> io::Result<()> {
    match said {
        Said::Hello { .. } => Ok(out.push_str("hello")?),
        Said::Abort => Ok(out.push_str("abort")?),
        Said::Goodbye => Ok(out.push_str("goodbye")?),
        Said::Publish(publish) => tell_request(
            out,
            "publish",
            publish.request.value(),
            publish.topic.as_str(),
        ),
        Said::Subscribe { request, topic, .. } => tell_request(
            out,
            "subscribe",
            request.value(),
            topic.as_str(),
        ),
        Said::Unsubscribe { request, .. } => {
            let number = request.value();
            Ok(write!(out, "unsubscribe {number}")?)
        }
    }
}

fn tell_request(out: &mut String, name: &str, request: u64, topic: &str) -> io::Result<()> {
    Ok(write!(out, "{name} {request} {topic}")?)
}
