//! What a client says that tells why its session ends.
ghost use Rattle.std.specs.Prelude.{◌≡◌, ◌∷◌, ◌++◌, ◌+◌, [], MatchResult, false};
ghost use Rattle.realm_inbox.specs.Joins.{is_join};
ghost use Rattle.realm_inbox.specs.Posted.{with_acts};

use realm_inbox::{Act, Posting, Shut};
use std::sync::Wait;
use wamp_messages::Said;

/// Posts what a client does by way of `poster`, counts it, and remembers whether it said ABORT, or HELLO once more.
#[derive(Drop)]
pub struct FarewellPoster<P> {
    /// Posts it.
    pub poster: P,
    /// Whether the client said ABORT so far.
    pub has_aborted: bool,
    /// Whether it said HELLO so far, for a second time then.
    pub has_greeted: bool,
    /// How many messages and PINGs the client sent so far.
    pub received: u64,
}

impl<S: Shut, P: Posting<S>> Posting<S> for FarewellPoster<P> {
    ghost posted = { λ e. P.posted e.poster };

    ghost weights = { λ e. P.weights e.poster };

    ghost returned = { λ e. P.returned e.poster };

    fn post<R: Wait>(&mut self, rt: &R, act: Act<S>, octets: usize) -> Result<(), Act<S>>
        requires { is_join act ≡ false }
        ensures posted { MatchResult result (λ _.
            P.posted self.new.poster ≡ with_acts (P.posted self.old.poster) (act ∷ []))
            (λ back. (back ≡ act) × (P.posted self.new.poster ≡ P.posted self.old.poster)) }
        ensures weighed { MatchResult result
            (λ _. P.weights self.new.poster ≡ P.weights self.old.poster ++ octets ∷ [])
            (λ _. P.weights self.new.poster ≡ P.weights self.old.poster) }
        ensures returned { MatchResult result
            (λ _. P.returned self.new.poster ≡ P.returned self.old.poster)
            (λ _. P.returned self.new.poster ≡ P.returned self.old.poster + 1) }
    {
        self.has_aborted = self.has_aborted || is_abort(&act);
        self.has_greeted = self.has_greeted || is_hello(&act);
        self.received = self.received.wrapping_add(sent_by(&act));
        self.poster.post(rt, act, octets)
    }

    fn rouse(&self) {
        self.poster.rouse();
    }
}

// How many messages and PINGs the client sends by this: one, or none.
fn sent_by<S: Shut>(act: &Act<S>) -> u64 {
    match act {
        Act::Said(_) | Act::Ping(_) => 1,
        _ => 0,
    }
}

// Whether the client says HELLO, which breaks the protocol in a session.
fn is_hello<S: Shut>(act: &Act<S>) -> bool {
    matches!(act, Act::Said(Said::Hello { .. }))
}

// Whether the client says ABORT.
fn is_abort<S: Shut>(act: &Act<S>) -> bool {
    matches!(act, Act::Said(Said::Abort))
}
