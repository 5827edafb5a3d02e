//! A pass that counts its finds: its steps that found the queue full, or empty.
//!
//! The two steps are generic over the rule of the queue and over what a step teaches. So neither can make up that the queue held
//! its capacity, or nothing: only a call of the queue tells it, and only of its own step. And nothing else raises the count of a
//! pass. So a count is one more exactly where a step of this pass, in this call, found the queue full, or empty.
ghost use Rattle.std.specs.Prelude.{◌≡◌, ◌+◌, MatchOption, MatchResult};
ghost use Rattle.std.specs.Prelude.{List};
ghost use Rattle.crossbeam_queue.specs.Fifo.{Held, Learns, Merges, Pops, Pushes};
ghost use Rattle.crossbeam_queue.specs.Passes.{view, IsPassOf, IsSamePass, ruled_capacity};

use crossbeam_queue::protocol::{Join, Lesson, Outcome, Protocol};
use crossbeam_queue::{Pass, RuledArrayQueue};
use ghost_state::GhostCount;
use std::sync::Wait;

/// A pass, and how often its steps found the queue full, if it adds, or empty, if it takes. It takes no bytes.
#[derive(Drop)]
pub struct CountedPass<T, V> {
    pass: Pass<T, V>,
    finds: GhostCount,
}

/// How often a pass found the queue full, or empty, before it was parted from its count. Only [`CountedPass::part`] makes one.
#[derive(Drop)]
pub struct Finds {
    count: GhostCount,
}

impl<T, V> CountedPass<T, V> {
    /// The pass, none of whose steps is counted yet.
    pub fn new(pass: Pass<T, V>) -> CountedPass<T, V>
        ensures pass { result.pass ≡ pass }
        ensures finds { result.finds ≡ 0 }
    {
        CountedPass {
            pass,
            finds: GhostCount::new(),
        }
    }

    /// The pass, without its count.
    pub fn into_pass(self) -> Pass<T, V>
        ensures { result ≡ self.pass }
    {
        let CountedPass { pass, finds: _ } = self;
        pass
    }

    /// The pass, and its count.
    pub fn part(self) -> (Pass<T, V>, Finds)
        ensures pass { result.0 ≡ self.pass }
        ensures finds { result.1.count ≡ self.finds }
    {
        let CountedPass { pass, finds } = self;
        (pass, Finds { count: finds })
    }

    /// Takes in what another pass knows, and tells what the rule says then. No step is counted.
    pub fn absorb<P: Protocol<T, V>, J: Join<V>, M: Lesson<T, V>>(
        &mut self,
        queue: &RuledArrayQueue<T, V, P>,
        other: Pass<T, V>,
    )
        requires queue { IsPassOf queue.now self.old.pass × IsPassOf queue.now other }
        requires rule { Merges P.holds self.old.pass.id (view self.old.pass) other.id (view other)
            (J.both (view self.old.pass) (view other)) J.spent
            × Learns P.holds self.old.pass.id (J.both (view self.old.pass) (view other))
            (M.fact (J.both (view self.old.pass) (view other))) }
        ensures queue { IsSamePass self.old.pass self.new.pass }
        ensures rule { view self.new.pass ≡ J.both (view self.old.pass) (view other) }
        ensures fact { (items : List T)
            × M.fact (J.both (view self.old.pass) (view other)) items }
        ensures finds { self.new.finds ≡ self.old.finds }
    {
        queue.absorb::<J>(&mut self.pass, other);
        queue.learn_as::<M>(&mut self.pass);
    }

    /// Pushes the item, or counts one more step that found the queue full. One attempt comes first,
    /// which costs half as much where nobody is in the way and there is room.
    pub fn push_counted<P: Protocol<T, V>, M: Outcome<T, V> + Lesson<T, V>, R: Wait>(
        &mut self,
        rt: &R,
        queue: &RuledArrayQueue<T, V, P>,
        item: T,
    ) -> Result<(), T>
        requires queue { IsPassOf queue.now self.old.pass }
        requires rule { Pushes P.holds (ruled_capacity queue.now) self.old.pass.id
            (view self.old.pass) item (M.then (view self.old.pass) item)
            × Learns P.holds self.old.pass.id (view self.old.pass) (M.fact (view self.old.pass)) }
        ensures queue { IsSamePass self.old.pass self.new.pass }
        ensures rule { MatchResult result
            (λ _. M.then (view self.old.pass) item (view self.new.pass)
            × (self.new.finds ≡ self.old.finds))
            (λ back. (back ≡ item) × (view self.new.pass ≡ view self.old.pass)
            × (self.new.finds ≡ self.old.finds + 1)
            × Held (ruled_capacity queue.now) (M.fact (view self.old.pass))) }
    {
        let item = match queue.try_push_as::<M>(&mut self.pass, item) {
            Ok(()) => return Ok(()),
            Err(back) => back,
        };
        match queue.push_as::<M, R>(rt, &mut self.pass, item) {
            Ok(()) => Ok(()),
            Err(back) => {
                self.finds.tick();
                Err(back)
            }
        }
    }

    /// Pops the item at the front, or counts one more step that found the queue empty. One attempt
    /// comes first, as above.
    pub fn pop_counted<P: Protocol<T, V>, M: Outcome<T, V> + Lesson<T, V>, R: Wait>(
        &mut self,
        rt: &R,
        queue: &RuledArrayQueue<T, V, P>,
    ) -> Option<T>
        requires queue { IsPassOf queue.now self.old.pass }
        requires rule { Pops P.holds self.old.pass.id
            (view self.old.pass) (M.then (view self.old.pass))
            × Learns P.holds self.old.pass.id (view self.old.pass) (M.fact (view self.old.pass)) }
        ensures queue { IsSamePass self.old.pass self.new.pass }
        ensures rule { MatchOption result
            ((view self.new.pass ≡ view self.old.pass) × (self.new.finds ≡ self.old.finds + 1)
            × Held 0 (M.fact (view self.old.pass)))
            (λ x. M.then (view self.old.pass) x (view self.new.pass)
            × (self.new.finds ≡ self.old.finds)) }
    {
        if let Some(item) = queue.try_pop_as::<M>(&mut self.pass) {
            return Some(item);
        }
        match queue.pop_as::<M, R>(rt, &mut self.pass) {
            Some(item) => Some(item),
            None => {
                self.finds.tick();
                None
            }
        }
    }
}
