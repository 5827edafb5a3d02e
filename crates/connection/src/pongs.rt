//! A client that doesn't take its PONGs is read no further.
ghost use Rattle.std.specs.Prelude.{◌≡◌, ◌∷◌, ◌++◌, ◌+◌, [], MatchResult, false};
ghost use Rattle.connection.specs.Watch.{told_to};
ghost use Rattle.realm_inbox.specs.Joins.{is_join};
ghost use Rattle.realm_inbox.specs.Posted.{with_acts};

use crate::told::Told;
use crate::watch::Watch;
use realm_inbox::{Act, Backlog, Posting, Shut};
use session::{Fault, Item};
use std::alloc::{AllocError, Global};
use std::sync::{Arc, Wait};

/// The PONGs that a connection's writer hasn't written yet, as its reader knows them.
#[derive(Drop)]
pub struct AskedPongs {
    waiting: Arc<Backlog>,
}

/// The same PONGs, as the writer knows them, which tells what it does with its items. Once this is dropped the reader waits for none.
pub struct OwedPongs {
    waiting: Arc<Backlog>,
    // It takes no bytes.
    told: Told,
}

/// What the two threads of a connection know of its PONGs: none waits yet.
///
/// # Errors
/// `AllocError` where a growth of memory was refused.
pub fn share_pongs(alloc: Global) -> Result<(AskedPongs, OwedPongs), AllocError> {
    let waiting = Arc::new(alloc, Backlog::new())?;
    let asked = AskedPongs {
        waiting: Arc::try_clone(&waiting)?,
    };
    let owed = OwedPongs {
        waiting,
        told: Told::nothing(),
    };
    Ok((asked, owed))
}

impl Watch for OwedPongs {
    ghost told = { λ p. told_to p.told };

    fn takes(&mut self, item: &Item) {
        self.told.takes(item);
    }

    fn writes(&mut self, item: &Item) {
        self.told.writes(item);
        if let Item::Pong(payload) = item {
            self.waiting.give_back(payload.as_slice().len());
        }
    }

    fn gives_up(&mut self, item: &Item, fault: Fault) {
        self.told.gives_up(item, fault);
    }
}

impl Drop for OwedPongs {
    // A reader that waits goes on: nobody writes PONGs any more.
    fn drop(self) {
        let Self { waiting, told: _ } = self;
        waiting.close();
    }
}

/// Posts what a client does by way of `poster`. Before it posts a PING it waits while [`MOST_WAITING`](realm_inbox::MOST_WAITING)
/// octets of PONGs, or more, weren't written yet: once it waits, until fewer than half of them are left. PONGs of less than 256 octets
/// aren't counted, since an outbox holds few of them.
///
/// Who ends that wait is the writer: with each PONG that it writes, and for good when it ends, or never came to be, since its
/// [`OwedPongs`] are dropped then. A PING whose PONG never comes is one of a session that isn't live any more, or never was, or of
/// which memory was refused, and that was cut for it; or it was turned away behind a stop. The outbox of each such session is closed,
/// so its writer ends. Who receives is woken before each PING, as a writer waits for what it makes of those before. And a client that takes none of its PONGs holds up its own reader and writer, until its stream is at its end.
#[derive(Drop)]
pub struct PongPoster<P> {
    /// The PONGs of the connection.
    pub pongs: AskedPongs,
    /// Posts it.
    pub poster: P,
}

impl<S: Shut, P: Posting<S>> Posting<S> for PongPoster<P> {
    ghost posted = { λ e. P.posted e.poster };

    ghost weights = { λ e. P.weights e.poster };

    ghost returned = { λ e. P.returned e.poster };

    fn post<R: Wait>(&mut self, rt: &R, act: Act<S>, octets: usize) -> Result<(), Act<S>>
        requires { is_join act ≡ false }
        ensures posted { MatchResult result (λ _.
            P.posted self.new.poster ≡ with_acts (P.posted self.old.poster) (act ∷ []))
            (λ back. (back ≡ act) × (P.posted self.new.poster ≡ P.posted self.old.poster)) }
        ensures weighed { MatchResult result
            (λ _. P.weights self.new.poster ≡ P.weights self.old.poster ++ octets ∷ [])
            (λ _. P.weights self.new.poster ≡ P.weights self.old.poster) }
        ensures returned { MatchResult result
            (λ _. P.returned self.new.poster ≡ P.returned self.old.poster)
            (λ _. P.returned self.new.poster ≡ P.returned self.old.poster + 1) }
    {
        if let Act::Ping(payload) = &act {
            self.poster.rouse();
            self.pongs.waiting.take_on(rt, payload.as_slice().len());
        }
        self.poster.post(rt, act, octets)
    }

    fn rouse(&self) {
        self.poster.rouse();
    }
}
