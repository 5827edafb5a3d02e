//! The two ends of a queue, each with a pass that counts its finds: the steps that found the queue full, or empty.
//!
//! While the ends are apart, [`Producer::push`] and [`Consumer::pop`] alone step the queue, and by the calls of `counted` alone:
//! so each find that an end shows was a step of the queue, in that call. [`settle_ends`] has both ends in one hand: `join_places`
//! looks how many items wait, and `take_all` takes them. Neither counts anything.
ghost use Rattle.std.specs.Prelude.{◌≡◌, ◌+◌, ◌≤◌, ◌<◌, [], ◌∷◌, ◌++◌, length, Some, None, true, false, slice_get, IfOk, IfSome, is_some, MatchResult, MatchOption, Option, vec_capacity};
ghost use Rattle.crossbeam_queue.specs.Passes.{view as shown, IsPassOf, IsSamePass, ruled_capacity};
ghost use Rattle.outbox_queue.specs.Rule.{start, adding, taking, both};
ghost use Rattle.outbox_queue.specs.Rule.{Grows, Belongs};
ghost use Rattle.outbox_queue.specs.Ends.{Owes, IsOf, TookAll, came_with, newest};
ghost use Rattle.outbox_queue.specs.Outbox.{TakesNote};
ghost use Rattle.outbox_queue.specs.Slot.{whose_drain, whose_of};
ghost use Rattle.atomic_table.specs.Seated.{TableId};

use crate::counted::{CountedPass, Finds};
use crate::owed::{Owed, Stamped};
use crate::parting::Farewell;
use crate::rule::{
    Adds, ComesOver, InStep, OutboxView, QueueNaming, Settles, Takes, TwoEnds, Whole,
};
use crossbeam_queue::{Pass, RuledArrayQueue};
use ghost_state::GhostCount;
use std::alloc::{AllocError, Global};
use std::marker::{Brand, Model};
use std::snapshot::Snapshot;
use std::sync::{Arc, Wait};

/// The queue itself.
pub type Queue<T, H> = RuledArrayQueue<Stamped<T, H>, OutboxView<T, H>, InStep>;

/// What one end knows of the queue. It takes no bytes.
pub type QueuePass<T, H> = Pass<Stamped<T, H>, OutboxView<T, H>>;

/// The same, with the end's count of finds.
pub type CountedQueuePass<T, H> = CountedPass<Stamped<T, H>, OutboxView<T, H>>;

/// The end that adds. Contracts see what was added, by which history, how often the queue was found full, and how much had been
/// added when it last was.
#[derive(Drop)]
pub struct Producer<T, H: Owed<T>> {
    queue: Arc<Queue<T, H>>,
    place: CountedQueuePass<T, H>,
    conn: u64,
    // Whether a step found the queue full.
    was_full: bool,
    added: GhostCount,
    added_at_find: Snapshot<GhostCount>,
}

impl<T, H: Owed<T>> Model for Producer<T, H> {
    ghost use Rattle.std.specs.Arc.{arc_value};
    ghost use Rattle.crossbeam_queue.specs.Passes.{view as shown, ruled_capacity};
    ghost use Rattle.outbox_queue.specs.Ends.{Adding};
    ghost use Rattle.outbox_queue.specs.body.EndInvariants.{IsAdding};

    ghost Value = { Adding T H };

    ghost view = { λ e. record {
      queue = e.place.pass.table_id;
      capacity = ruled_capacity (arc_value e.queue);
      conn = (shown e.place.pass).conn;
      chronicle = (shown e.place.pass).chronicle;
      history = (shown e.place.pass).history;
      added = (shown e.place.pass).added;
      full_finds = e.place.finds;
      added_at_find = e.added_at_find.value;
    } };

    ghost invariant = { IsAdding H.owed H.is_of };
}

impl<T: Drop, H: Owed<T>> Producer<T, H> {
    /// How many items may wait.
    pub fn capacity(&self) -> usize
        ensures { result ≡ self.now.capacity }
    {
        self.queue.capacity()
    }

    /// Whose items it carries.
    pub fn conn(&self) -> u64
        ensures { result ≡ self.now.conn }
    {
        self.conn
    }

    /// Whether a step found the queue full.
    pub fn was_full(&self) -> bool
        ensures full { result ≡ true → 0 < self.now.full_finds }
        ensures never { result ≡ false → self.now.full_finds ≡ 0 }
    {
        self.was_full
    }

    /// Shows what always holds of this end.
    pub fn shows(&self)
        ensures owed { Owes H.owed self.now.history self.now.conn self.now.added }
        ensures chronicle { IsOf H.is_of self.now.history self.now.chronicle }
        ensures finds { self.now.added ≡ [] → self.now.full_finds ≡ 0 }
        ensures room { 0 < self.now.full_finds → self.now.capacity ≤ length self.now.added }
        ensures begun { self.now.added ≡ [] → self.now.history ≡ None }
    {
        let _ = &self.place;
    }

    /// What it knows of the queue, and how often it found that full.
    pub fn into_place(self) -> (QueuePass<T, H>, Finds)
        ensures queue { result.0.table_id ≡ self.queue }
        ensures free { result.0.me.1 ≡ [] }
        ensures view { shown result.0 ≡ adding self.conn self.chronicle self.history self.added }
        ensures finds { result.1.count ≡ self.full_finds }
    {
        self.place.part()
    }

    /// Stamps the next item that a history owes the connection.
    pub fn stamp(&self, item: T, history: H) -> Stamped<T, H>
        requires { slice_get (H.owed history self.now.conn) (length self.now.added)
            ≡ Some item }
        ensures { result ≡ record {
          item = item;
          conn = self.now.conn;
          place = length self.now.added;
          history = history;
        } }
    {
        Stamped::new(item, &self.conn, &self.added, history)
    }

    /// Adds the item, or counts one more step that found the queue full.
    pub fn push<R: Wait>(&mut self, rt: &R, item: Stamped<T, H>) -> Result<(), Stamped<T, H>>
        requires conn { item.conn ≡ self.old.conn }
        requires place { item.place ≡ length self.old.added }
        requires history { Grows H.begins self.old.history (Some item.history) }
        requires chronicle { Belongs H.is_of item.history self.old.chronicle }
        ensures { MatchResult result
            (λ _. self.new ≡ record self.old {
              history = Some item.history;
              added = self.old.added ++ item.item ∷ [];
            })
            (λ back. (back ≡ item)
            × (self.new ≡ record self.old {
              full_finds = self.old.full_finds + 1;
              added_at_find = length self.old.added;
            })
            × (self.old.capacity ≤ length self.old.added)) }
    {
        item.shows();
        match self
            .place
            .push_counted::<InStep, Adds, R>(rt, &self.queue, item)
        {
            Ok(()) => {
                self.added.tick();
                Ok(())
            }
            Err(back) => {
                self.was_full = true;
                self.added_at_find = Snapshot::of(&self.added);
                Err(back)
            }
        }
    }
}

/// What came with the end that added: a history that vouches for what was added, if one does, how often that end had found the queue
/// full, whether it had at all, and whether the connection was lost.
#[derive(Drop)]
pub struct Came<H> {
    history: Option<H>,
    finds: Finds,
    was_full: bool,
    is_lost: bool,
}

/// The end that takes. Contracts see what was taken, the history seen, how often the queue was found empty, and what came with the end
/// that added, once that came over.
#[derive(Drop)]
pub struct Consumer<T, H: Owed<T>> {
    queue: Arc<Queue<T, H>>,
    // Also what the end that added knew, once it came over.
    place: CountedQueuePass<T, H>,
    conn: u64,
    came: Option<Came<H>>,
}

impl<T, H: Owed<T>> Model for Consumer<T, H> {
    ghost use Rattle.std.specs.Arc.{arc_value};
    ghost use Rattle.crossbeam_queue.specs.Passes.{view as shown, ruled_capacity};
    ghost use Rattle.outbox_queue.specs.Ends.{Taking};
    ghost use Rattle.outbox_queue.specs.body.EndInvariants.{IsTaking, last_of};

    ghost Value = { Taking T H };

    ghost view = { λ e. record {
      queue = e.place.pass.table_id;
      capacity = ruled_capacity (arc_value e.queue);
      conn = (shown e.place.pass).conn;
      chronicle = (shown e.place.pass).chronicle;
      seen = (shown e.place.pass).seen;
      taken = (shown e.place.pass).taken;
      empty_finds = e.place.finds;
      last = last_of e.came (shown e.place.pass).added;
    } };

    ghost invariant = { IsTaking H.owed H.is_over H.was_cut H.is_of };
}

impl<T: Drop, H: Owed<T>> Consumer<T, H> {
    /// Whose items it carries.
    pub fn conn(&self) -> u64
        ensures { result ≡ self.now.conn }
    {
        self.conn
    }

    /// Shows what always holds of this end.
    pub fn shows(&self)
        ensures owed { Owes H.owed self.now.seen self.now.conn self.now.taken }
        ensures chronicle { IsOf H.is_of self.now.seen self.now.chronicle }
        ensures newest { Owes H.owed (newest self.now) self.now.conn self.now.taken }
        ensures newest_of { IsOf H.is_of (newest self.now) self.now.chronicle }
    {
        let _ = &self.place;
    }

    /// Takes the item at the front, or counts one more step that found the queue empty. Where the end that added came over, all was taken
    /// then.
    pub fn pop<R: Wait>(&mut self, rt: &R) -> Option<Stamped<T, H>>
        ensures { MatchOption result
            ((self.new ≡ record self.old { empty_finds = self.old.empty_finds + 1 })
            × IfSome self.old.last (λ _. TookAll H.owed H.is_over H.was_cut self.old))
            (λ x. TakesNote H.begins H.is_of self.old x self.new) }
    {
        if self.came.is_some() {
            self.pop_rest(rt)
        } else {
            self.pop_apart(rt)
        }
    }

    // The same while the end that adds is elsewhere.
    fn pop_apart<R: Wait>(&mut self, rt: &R) -> Option<Stamped<T, H>>
        requires { self.old.last ≡ None }
        ensures { MatchOption result
            (self.new ≡ record self.old { empty_finds = self.old.empty_finds + 1 })
            (λ x. TakesNote H.begins H.is_of self.old x self.new) }
    {
        let item = self.place.pop_counted::<InStep, Takes, R>(rt, &self.queue)?;
        item.shows();
        Some(item)
    }

    // The same once that came over.
    fn pop_rest<R: Wait>(&mut self, rt: &R) -> Option<Stamped<T, H>>
        requires { is_some self.old.last ≡ true }
        ensures { MatchOption result
            ((self.new ≡ record self.old { empty_finds = self.old.empty_finds + 1 })
            × IfSome self.old.last (λ _. TookAll H.owed H.is_over H.was_cut self.old))
            (λ x. TakesNote H.begins H.is_of self.old x self.new) }
    {
        let item = self
            .place
            .pop_counted::<InStep, Settles, R>(rt, &self.queue)?;
        item.shows();
        Some(item)
    }

    /// Whether the end that added came over.
    pub fn has_come(&self) -> bool
        ensures { result ≡ is_some self.now.last }
    {
        self.came.is_some()
    }

    /// Whether a history came with it.
    pub fn is_vouched(&self) -> bool
        ensures { result ≡ is_some (came_with self.now.last) }
    {
        match &self.came {
            None => false,
            Some(came) => came.history.is_some(),
        }
    }

    /// Whether that end had found the queue full.
    pub fn was_full(&self) -> bool
        ensures full { IfSome self.now.last (λ l. result ≡ true → 0 < l.full_finds) }
        ensures never { IfSome self.now.last (λ l. result ≡ false → l.full_finds ≡ 0) }
    {
        match &self.came {
            None => false,
            Some(came) => came.was_full,
        }
    }

    /// Whether the connection was lost, as that end says.
    pub fn is_lost(&self) -> bool
        ensures { IfSome self.now.last (λ l. l.is_lost ≡ result) }
    {
        match &self.came {
            None => false,
            Some(came) => came.is_lost,
        }
    }

    /// The end that added comes over, with a history that vouches for what was added, if one does.
    pub fn take_over(&mut self, farewell: Farewell<T, H>)
        requires whose { whose_of farewell.end ≡ whose_drain self.old }
        requires first { self.old.last ≡ None }
        ensures { self.new ≡ record self.old {
          last = Some (record {
            history = farewell.history;
            added = farewell.end.added;
            full_finds = farewell.end.full_finds;
            is_lost = farewell.is_lost;
          });
        } }
    {
        let (end, history, is_lost) = farewell.into_parts();
        end.shows();
        let was_full = end.was_full();
        let (theirs, finds) = end.into_place();
        self.place
            .absorb::<InStep, ComesOver, Settles>(&self.queue, theirs);
        self.came = Some(Came {
            history,
            finds,
            was_full,
            is_lost,
        });
    }

    /// The history that came with the end that added.
    pub fn into_last(self) -> Option<H>
        ensures { result ≡ came_with self.last }
    {
        let Consumer { came, .. } = self;
        match came {
            Some(came) => came.history,
            None => None,
        }
    }
}

/// Cuts the one pass of a new queue into those of the two ends. The caller picks the connection and the
/// chronicle.
fn cut<T, H: Owed<T>, J: QueueNaming>(
    queue: &Queue<T, H>,
    place: &mut QueuePass<T, H>,
    conn: u64,
) -> QueuePass<T, H>
    requires queue { IsPassOf queue.now place.old }
    requires start { shown place.old ≡ start }
    requires conn { conn ≡ J.conn }
    ensures queue { IsSamePass place.old place.new × IsPassOf queue.now result }
    ensures ends { (shown place.new ≡ adding conn J.chronicle None [])
        × (shown result ≡ taking conn J.chronicle None []) }
{
    queue.another::<TwoEnds<J>>(place)
}

/// The two ends of a new queue, through which nothing has gone. The caller picks the chronicle of its
/// histories, or none.
pub fn new_ends<T: Drop, H: Owed<T>>(
    alloc: Global,
    conn: u64,
    cap: usize,
) -> Result<(Producer<T, H>, Consumer<T, H>), AllocError>
    ghost chronicle: { Option TableId }
    requires { 0 < cap }
    ensures adding { IfOk result (λ p. p.0 ≡ record {
      queue = p.1.queue;
      capacity = cap;
      conn = conn;
      chronicle = chronicle;
      history = None;
      added = [];
      full_finds = 0;
      added_at_find = 0;
    }) }
    ensures taking { IfOk result (λ p. p.1 ≡ record {
      queue = p.1.queue;
      capacity = cap;
      conn = conn;
      chronicle = chronicle;
      seen = None;
      taken = [];
      empty_finds = 0;
      last = None;
    }) }
{
    let (queue, mut place) = Queue::ruled(alloc, cap)?;
    let theirs = cut::<T, H, Brand>(&queue, &mut place, conn);
    let queue = Arc::new(alloc, queue)?;
    let again = Arc::try_clone(&queue)?;
    let adding = Producer {
        queue,
        place: CountedPass::new(place),
        conn,
        was_full: false,
        added: GhostCount::new(),
        added_at_find: Snapshot::of(&GhostCount::new()),
    };
    let taking = Consumer {
        queue: again,
        place: CountedPass::new(theirs),
        conn,
        came: None,
    };
    Ok((adding, taking))
}

/// Puts the views of the two ends together, and tells how they stand to each other.
fn join_places<T: Drop, H: Owed<T>, R: Wait>(
    rt: &R,
    queue: &Queue<T, H>,
    place: &mut QueuePass<T, H>,
    theirs: QueuePass<T, H>,
)
    requires queue { IsPassOf queue.now place.old × IsPassOf queue.now theirs }
    requires adds { (shown place.old).adds ≡ true }
    requires takes { (shown theirs).takes ≡ true }
    ensures queue { IsPassOf queue.now place.new }
    ensures both { shown place.new ≡ both (shown place.old) (shown theirs) }
    ensures room { length (shown place.old).added ≤ length (shown theirs).taken
        + ruled_capacity queue.now }
    ensures history { Grows H.begins (shown theirs).seen (shown place.old).history }
{
    queue.absorb::<Whole>(place, theirs);
    queue.len_as::<Settles, R>(rt, place);
}

/// Takes what is left, the front first. There is room for it.
fn take_all<T: Drop, H: Owed<T>, R: Wait>(
    rt: &R,
    queue: &Queue<T, H>,
    mut place: QueuePass<T, H>,
    mut into: Vec<T>,
) -> Vec<T>
    requires queue { IsPassOf queue.now place }
    requires both { ((shown place).adds ≡ true) × ((shown place).takes ≡ true) }
    requires empty { into.items ≡ [] }
    requires room { length (shown place).added ≤ length (shown place).taken + vec_capacity into }
    ensures { (shown place).added ≡ (shown place).taken ++ result.items }
{
    for _ in rt.forever() {
        let Some(item) = queue.pop_as::<Settles, R>(rt, &mut place) else {
            break;
        };
        into.push_reserved(item.into_item());
    }
    into
}

/// Takes what was added and not taken, with both ends in one hand.
pub fn settle_ends<T: Drop, H: Owed<T>, R: Wait>(
    rt: &R,
    into: Vec<T>,
    adding: Producer<T, H>,
    taking: Consumer<T, H>,
) -> Vec<T>
    requires pair { adding.queue ≡ taking.queue }
    requires empty { into.items ≡ [] }
    requires room { adding.capacity ≤ vec_capacity into }
    ensures rest { taking.taken ++ result.items ≡ adding.added }
    ensures waiting { length result.items ≤ adding.capacity }
    ensures history { Grows H.begins taking.seen adding.history }
{
    let Producer {
        queue,
        place,
        conn: _,
        was_full: _,
        added: _,
        added_at_find: _,
    } = adding;
    let Consumer {
        queue: _,
        place: theirs,
        conn: _,
        came: _,
    } = taking;
    let mut place = place.into_pass();
    join_places(rt, &queue, &mut place, theirs.into_pass());
    take_all(rt, &queue, place, into)
}
