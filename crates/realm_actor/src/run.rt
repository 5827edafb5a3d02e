//! How an actor runs.
ghost use Rattle.std.specs.Prelude.{◌≡◌, ℕ, ◌++◌, [], ◌∷◌, true, false, None, Some, List, IfSome, MatchOption};
ghost use Rattle.realm.specs.History.{Begins};
ghost use Rattle.realm.specs.Sessions.{live};
ghost use Rattle.realm_actor.specs.LastCut.{outbox_of};
ghost use Rattle.realm_inbox.specs.declared.letter.Post.{Post as APost};
ghost use Rattle.realm_inbox.specs.Seats.{InOrder, IsNext, IsHomed};
ghost use Rattle.realm_inbox.specs.Behind.{IsBehind};
ghost use Rattle.realm_inbox.specs.EndViews.{received, home_of, inbox_of};
ghost use Rattle.realm_actor.specs.PostedOrder.{KeepsOrderSince, acts_for};
ghost use Rattle.realm_actor.specs.Run.{EndsInStop, Handles, IsAt, KeepsHeld, Ran, SameAtSeats, is_stop};

use crate::actor::Actor;
use crate::id_source::IdSource;
use crate::load::Load;
use crate::outcome::Outcome;
use realm::Refusal;
use realm_inbox::{Inbox, Post, Shut};
use std::alloc::Global;
use std::sync::Wait;

// How many posts may be handled, while more wait, before the writers of those that got something are woken.
const MOST_UNWOKEN: u64 = 64;

// What took less is taken as it was found. What took longer may be time in which the system didn't let the thread run.
const LOOKED_INTO: u64 = 20_000;

// Whether it is a stop.
fn is_stop<S: Shut>(post: &Post<S>) -> bool
    ensures { result ≡ is_stop post.now }
{
    match post {
        Post::Act(_) => false,
        Post::Stop(_) => true,
    }
}

/// Who is shown a realm while its actor runs.
pub trait Onlooker {
    /// Is told after each post whether as many topics as may have a retained publication have one.
    fn sees_retained(&mut self, is_full: bool);

    /// Is told of the first request of a session that was refused.
    fn sees_refusal(&mut self, _refusal: Refusal) {}

    /// Is asked before each post, and before the actor waits for one, whether it wants to see how much there is.
    fn wants_load(&mut self, _is_idle: bool) -> bool {
        false
    }

    /// Is told how much the realm and its actor hold.
    fn sees_load(&mut self, _load: &Load) {}

    /// The nanoseconds since an arbitrary moment, by which the actor tells its inbox how long posts took. Where it has no clock they
    /// don't go on, and the inbox gives all posts as they come.
    fn nanos(&mut self) -> u64 {
        0
    }

    /// The nanoseconds that the calling thread has worked so far. Where it has no such clock, those of [`Onlooker::nanos`].
    fn worked(&mut self) -> u64 {
        self.nanos()
    }
}

/// Nobody looks on.
#[derive(Clone, Copy, Drop)]
pub struct Nobody;

impl Onlooker for Nobody {
    fn sees_retained(&mut self, _is_full: bool) {}
}

impl<S: Shut, W: IdSource> Actor<S, W> {
    /// Handles what the inbox gives, until a stop was handled or each sender is gone. Before each post it forgets the sessions
    /// that aren't live ([`Actor::sweep`]). What the actor has handled is, seat by seat, what the inbox has given so far, also
    /// when it returns.
    ///
    /// The history keeps the order of each connection's acts, of those too that were handled before: its entries, Cut and Closed
    /// left aside, are some of its acts, in their order, each once. Where the first is its Join and no later one is a Join, they
    /// are a beginning of its acts, and all of them if its session is live at the end, or was closed in this run.
    ///
    /// All that it received is handled when it returns. Writers are woken after at most 64 posts, behind each that took long and
    /// before each that probably will, and always before it waits.
    pub fn run<R: Wait>(self, rt: &R, alloc: Global, inbox: &mut Inbox<S>) -> Actor<S, W>
        requires in_turn { SameAtSeats self.handled (received inbox.old) }
        requires home { IsAt self.chronicle (home_of inbox.old) }
        ensures ran { (came : List (APost S)) × (received inbox.new ≡ received inbox.old ++ came)
            × InOrder (received inbox.old) came × Ran self came result }
        ensures begins { Begins self.history result.history }
        ensures in_turn { SameAtSeats result.handled (received inbox.new) }
        ensures order { (c : ℕ) → KeepsOrderSince self.history c (acts_for c result.handled)
            result.history }
        ensures held { KeepsHeld self result }
        ensures chronicle { result.chronicle ≡ self.chronicle }
        ensures same { inbox_of inbox.new ≡ inbox_of inbox.old }
    {
        self.run_on(rt, alloc, inbox, &mut Nobody, true)
    }

    /// The same as [`Actor::run`], while somebody looks on, and a stop alone ends it: whoever calls it keeps a door of the inbox until
    /// one is posted. Where each sender is gone before, it looks again and again. What that stop comes behind was handled before it, and
    /// nobody is live behind it.
    pub fn run_to_stop<R: Wait, O: Onlooker>(
        self,
        rt: &R,
        alloc: Global,
        inbox: &mut Inbox<S>,
        onlooker: &mut O,
    ) -> Actor<S, W>
        requires in_turn { SameAtSeats self.handled (received inbox.old) }
        requires home { IsAt self.chronicle (home_of inbox.old) }
        ensures ran { (came : List (APost S)) × (received inbox.new ≡ received inbox.old ++ came)
            × InOrder (received inbox.old) came × Ran self came result
            × EndsInStop (received inbox.old) came }
        ensures ended { (c : ℕ) → live result.history c ≡ false }
        ensures begins { Begins self.history result.history }
        ensures in_turn { SameAtSeats result.handled (received inbox.new) }
        ensures order { (c : ℕ) → KeepsOrderSince self.history c (acts_for c result.handled)
            result.history }
        ensures held { KeepsHeld self result }
        ensures chronicle { result.chronicle ≡ self.chronicle }
        ensures same { inbox_of inbox.new ≡ inbox_of inbox.old }
    {
        self.run_on(rt, alloc, inbox, onlooker, false)
    }

    // Runs until a stop was handled, or, where it may leave, each sender is gone.
    fn run_on<R: Wait, O: Onlooker>(
        mut self,
        rt: &R,
        alloc: Global,
        inbox: &mut Inbox<S>,
        onlooker: &mut O,
        may_leave: bool,
    ) -> Actor<S, W>
        requires in_turn { SameAtSeats self.handled (received inbox.old) }
        requires home { IsAt self.chronicle (home_of inbox.old) }
        ensures ran { (came : List (APost S)) × (received inbox.new ≡ received inbox.old ++ came)
            × InOrder (received inbox.old) came × Ran self came result
            × (may_leave ≡ false → EndsInStop (received inbox.old) came) }
        ensures ended { may_leave ≡ false → (c : ℕ) → live result.history c ≡ false }
        ensures begins { Begins self.history result.history }
        ensures in_turn { SameAtSeats result.handled (received inbox.new) }
        ensures order { (c : ℕ) → KeepsOrderSince self.history c (acts_for c result.handled)
            result.history }
        ensures held { KeepsHeld self result }
        ensures chronicle { result.chronicle ≡ self.chronicle }
        ensures same { inbox_of inbox.new ≡ inbox_of inbox.old }
    {
        self.shows();
        let mut pace = Pace {
            unwoken: 0,
            since: onlooker.nanos(),
            worked: onlooker.worked(),
        };
        for _ in rt.forever() {
            self.sweep();
            let Some(post) = self.next_post(rt, inbox, onlooker, &mut pace, may_leave) else {
                return self;
            };
            let ends = is_stop(&post);
            self.take_shown(rt, alloc, post, onlooker);
            self.note_time(inbox, onlooker, &mut pace);
            if ends {
                self.wake();
                return self;
            }
        }
        unreachable!()
    }

    // Handles a post, and shows what came of it to who looks on.
    fn take_shown<R: Wait, O: Onlooker>(
        &mut self,
        rt: &R,
        alloc: Global,
        post: Post<S>,
        onlooker: &mut O,
    ) -> Outcome
        requires home { IsHomed (Some self.old.chronicle) post }
        ensures handles { Handles result post self.old self.new }
        ensures chronicle { self.new.chronicle ≡ self.old.chronicle }
    {
        let outcome = self.take(rt, alloc, post);
        self.show(onlooker);
        outcome
    }

    // Shows who looks on what came of the last post.
    fn show<O: Onlooker>(&mut self, onlooker: &mut O)
        ensures { self.new ≡ self.old }
    {
        onlooker.sees_retained(self.is_retained_full());
        if let Some(refusal) = self.first_refusal() {
            onlooker.sees_refusal(refusal);
        }
    }

    // The next post, once the sessions that aren't live are forgotten: who waits for a post holds no outbox of theirs, so that their
    // writers end. Where no post is there, or many were handled since, or it will probably take long, the writers are woken first.
    // `None` only where the run may leave.
    fn next_post<R: Wait, O: Onlooker>(
        &self,
        rt: &R,
        inbox: &mut Inbox<S>,
        onlooker: &mut O,
        pace: &mut Pace,
        may_leave: bool,
    ) -> Option<Post<S>>
        requires swept { (c : ℕ) → live self.now.history c ≡ false
            → outbox_of self.now.rows c ≡ None }
        ensures stays { result ≡ None → may_leave ≡ true }
        ensures given { MatchOption result (received inbox.new ≡ received inbox.old)
            (λ p. received inbox.new ≡ received inbox.old ++ p ∷ []) }
        ensures in_turn { IfSome result (λ p. IsNext (received inbox.old) p) }
        ensures home { IfSome result (λ p. IsHomed (home_of inbox.old) p) }
        ensures behind { IfSome result (λ p. IsBehind (received inbox.old) p) }
        ensures same { inbox_of inbox.new ≡ inbox_of inbox.old }
    {
        let ready = inbox.try_receive(rt);
        self.prepare(inbox, onlooker, pace, ready.is_none());
        if let Some(post) = ready {
            return Some(post);
        }
        let post = wait_for_post(rt, inbox, may_leave);
        pace.since = onlooker.nanos();
        post
    }

    // Before a post is handled, or none is there: wakes the writers if they are due, and begins a turn.
    fn prepare<O: Onlooker>(
        &self,
        inbox: &Inbox<S>,
        onlooker: &mut O,
        pace: &mut Pace,
        is_idle: bool,
    ) {
        self.wake_in_time(&mut pace.unwoken, is_idle || inbox.is_dear());
        if onlooker.wants_load(is_idle) {
            onlooker.sees_load(&self.load(inbox));
        }
        if inbox.begins_turn() {
            pace.begin(onlooker);
        }
    }

    // Wakes the writers if they are due: the actor is to wait or to take long, or has handled many posts since they were woken.
    fn wake_in_time(&self, unwoken: &mut u64, is_due: bool) {
        if is_due || MOST_UNWOKEN <= *unwoken {
            self.wake();
            *unwoken = 0;
        }
        *unwoken += 1;
    }

    // Tells the inbox how long the posts took that it gave, where it wants to know. The writers are woken behind what took long.
    fn note_time<O: Onlooker>(&self, inbox: &mut Inbox<S>, onlooker: &mut O, pace: &mut Pace)
        ensures none { received inbox.new ≡ received inbox.old }
        ensures same { inbox_of inbox.new ≡ inbox_of inbox.old }
    {
        if !inbox.is_due() {
            return;
        }
        if inbox.note_time(pace.took(onlooker)) {
            self.wake();
            pace.unwoken = 0;
        }
    }
}

// How a run paces itself.
#[derive(Drop)]
struct Pace {
    // How many posts were handled since the writers were woken.
    unwoken: u64,
    // When the inbox was last told how long posts took, a turn began, or the actor had waited.
    since: u64,
    // What the thread had worked when that was last asked.
    worked: u64,
}

impl Pace {
    // What went by isn't the next post's.
    fn begin<O: Onlooker>(&mut self, onlooker: &mut O) {
        self.worked = onlooker.worked();
        self.since = onlooker.nanos();
    }

    // How long the posts took since the last look: the time that went by, or of a longer one as much as the thread worked.
    fn took<O: Onlooker>(&mut self, onlooker: &mut O) -> u64 {
        let now = onlooker.nanos();
        let went_by = now.saturating_sub(self.since);
        self.since = now;
        if went_by < LOOKED_INTO {
            return went_by;
        }
        let worked = onlooker.worked();
        let took = went_by.min(worked.saturating_sub(self.worked));
        self.worked = worked;
        took
    }
}

// Waits for a post. Where each sender is gone it is `None`, if the run may leave then; if it may not, it waits on.
fn wait_for_post<S: Shut, R: Wait>(rt: &R, inbox: &mut Inbox<S>, may_leave: bool) -> Option<Post<S>>
    ensures stays { result ≡ None → may_leave ≡ true }
    ensures given { MatchOption result (received inbox.new ≡ received inbox.old)
        (λ p. received inbox.new ≡ received inbox.old ++ p ∷ []) }
    ensures in_turn { IfSome result (λ p. IsNext (received inbox.old) p) }
    ensures home { IfSome result (λ p. IsHomed (home_of inbox.old) p) }
    ensures behind { IfSome result (λ p. IsBehind (received inbox.old) p) }
    ensures same { inbox_of inbox.new ≡ inbox_of inbox.old }
{
    for _ in rt.forever() {
        match inbox.receive(rt) {
            Some(post) => return Some(post),
            None => {
                if may_leave {
                    return None;
                }
            }
        }
    }
    unreachable!()
}
