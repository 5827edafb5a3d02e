//! Where a reader posts what its client does.
ghost use Rattle.std.specs.Prelude.{◌≡◌, ◌∷◌, ◌++◌, ◌+◌, [], List, ℕ, MatchResult, false};
ghost use Rattle.realm_inbox.specs.Joins.{is_join};
ghost use Rattle.realm_inbox.specs.Posted.{Posted, with_acts};
ghost use Rattle.realm_inbox.specs.Seats.{BringsHome, BringsOwn};

use crate::act::Act;
use crate::ends::Poster;
use crate::transport::Shut;
use std::snapshot::Snapshot;
use std::sync::Wait;

/// Where the acts of one connection go once it has asked for its session, one after another.
pub trait Posting<S: Shut> {
    /// What was posted so far, and where: that stays.
    ghost posted: { Self → Posted S };

    /// As how many octets each act counted that was posted here.
    ghost weights: { Self → List ℕ };

    /// How many acts came back.
    ghost returned: { Self → ℕ };

    /// Posts an act that is no Join, and may wait for room. It was read from so many octets of the client's, or from none. Who receives
    /// it may sleep on until [`Posting::rouse`] is called.
    ///
    /// # Errors
    /// The act, where nobody receives it any more. Nothing was posted then.
    fn post<R: Wait>(&mut self, rt: &R, act: Act<S>, octets: usize) -> Result<(), Act<S>>
        requires { is_join act ≡ false }
        ensures posted { MatchResult result
            (λ _. posted self.new ≡ with_acts (posted self.old) (act ∷ []))
            (λ back. (back ≡ act) × (posted self.new ≡ posted self.old)) }
        ensures weighed { MatchResult result
            (λ _. weights self.new ≡ weights self.old ++ octets ∷ [])
            (λ _. weights self.new ≡ weights self.old) }
        ensures returned { MatchResult result (λ _. returned self.new ≡ returned self.old)
            (λ _. returned self.new ≡ returned self.old + 1) };

    /// Wakes who receives what was posted, if it sleeps. Whoever posts calls this behind the last of several posts, and before it waits
    /// for anything else or takes long.
    fn rouse(&self);
}

impl<S: Shut> Posting<S> for Poster<S> {
    ghost use Rattle.realm_inbox.specs.EndViews.{posted_by, weights_by, returned_by};

    ghost posted = { posted_by };

    ghost weights = { weights_by };

    ghost returned = { returned_by };

    fn post<R: Wait>(&mut self, rt: &R, act: Act<S>, octets: usize) -> Result<(), Act<S>>
        requires { is_join act ≡ false }
        ensures posted { MatchResult result
            (λ _. posted_by self.new ≡ with_acts (posted_by self.old) (act ∷ []))
            (λ back. (back ≡ act) × (posted_by self.new ≡ posted_by self.old)) }
        ensures weighed { MatchResult result
            (λ _. weights_by self.new ≡ weights_by self.old ++ octets ∷ [])
            (λ _. weights_by self.new ≡ weights_by self.old) }
        ensures returned { MatchResult result (λ _. returned_by self.new ≡ returned_by self.old)
            (λ _. returned_by self.new ≡ returned_by self.old + 1) }
    {
        self.post_quietly(rt, act, octets)
    }

    fn rouse(&self) {
        self.seat.bells.wake_receiver();
    }
}

impl<S: Shut> Poster<S> {
    ghost use Rattle.realm_inbox.specs.EndViews.{posted, poster_conn, home_of_poster, inbox_of_poster, weights_by, returned_by};

    // Posts an act, as `post` does, but wakes the receiving end only before a wait.
    pub(crate) fn post_quietly<R: Wait>(
        &mut self,
        rt: &R,
        act: Act<S>,
        octets: usize,
    ) -> Result<(), Act<S>>
        requires own { BringsOwn (poster_conn self.old) act }
        requires home { BringsHome (home_of_poster self.old) act }
        ensures posted { MatchResult result (λ _.
            posted self.new ≡ posted self.old ++ (poster_conn self.old, act) ∷ [])
            (λ back. (back ≡ act) × (posted self.new ≡ posted self.old)) }
        ensures same { (poster_conn self.new ≡ poster_conn self.old)
            × (inbox_of_poster self.new ≡ inbox_of_poster self.old) }
        ensures weighed { MatchResult result
            (λ _. weights_by self.new ≡ weights_by self.old ++ octets ∷ [])
            (λ _. weights_by self.new ≡ weights_by self.old) }
        ensures returned { MatchResult result (λ _. returned_by self.new ≡ returned_by self.old)
            (λ _. returned_by self.new ≡ returned_by self.old + 1) }
    {
        let posted = self.seat.post(rt, self.conn, act, octets);
        match &posted {
            Ok(()) => self.weights.add(Snapshot::of(&octets)),
            Err(_) => self.returned.tick(),
        }
        posted
    }
}
