//! The adding end of an outbox, which can be closed.
ghost use Rattle.std.specs.Prelude.{◌≡◌, ◌+◌, ◌<◌, ◌≤◌, [], ◌∷◌, ◌++◌, length, true, false, Some, None, slice_get, MatchResult};
ghost use Rattle.std.specs.Arc.{arc_value};
ghost use Rattle.crossbeam_queue.specs.Passes.{view as shown, IsPassOf};
ghost use Rattle.outbox_queue.specs.Rule.{Grows, Belongs};
ghost use Rattle.outbox_queue.specs.Ends.{Owes, IsOf, Vouches};
ghost use Rattle.outbox_queue.specs.Slot.{whose_of};

use crate::ends::Producer;
use crate::link::{EndsLink, SlotPass};
use crate::owed::{Owed, Stamped};
use crate::parting::Farewell;
use crossbeam_utils::sync::Unparker;
use std::marker::Model;
use std::sync::atomic::Ordering;
use std::sync::{Arc, Wait};

/// E14: the queue held its capacity. The item comes back.
#[derive(Drop)]
pub struct Full<S>(pub S);

/// The end that adds. A dropped outbox is closed, and handed over to its drain ([`Outbox::hand_over`]), but nothing vouches for what was
/// added.
///
/// Contracts see which queue it is of, its capacity and connection, the chronicle of its histories, what was added and by which
/// history, how often the queue was found full, and whether it is closed.
pub struct Outbox<T, H: Owed<T>> {
    end: Producer<T, H>,
    is_closed: bool,
    link: Arc<EndsLink<T, H>>,
    pass: SlotPass<T, H>,
    waker: Unparker,
}

impl<T, H: Owed<T>> Model for Outbox<T, H> {
    ghost use Rattle.outbox_queue.specs.Ends.{Sending};
    ghost use Rattle.outbox_queue.specs.body.LinkInvariants.{IsSending};

    ghost Value = { Sending T H };

    ghost view = { λ o. record {
      queue = o.end.queue;
      capacity = o.end.capacity;
      conn = o.end.conn;
      chronicle = o.end.chronicle;
      history = o.end.history;
      added = o.end.added;
      full_finds = o.end.full_finds;
      added_at_find = o.end.added_at_find;
      is_closed = o.is_closed;
    } };

    ghost invariant = { IsSending };
}

impl<T: Drop, H: Owed<T>> Outbox<T, H> {
    pub(crate) fn new(
        end: Producer<T, H>,
        link: Arc<EndsLink<T, H>>,
        pass: SlotPass<T, H>,
        waker: Unparker,
    ) -> Outbox<T, H>
        requires slot { IsPassOf (arc_value link).slot pass }
        requires whose { shown pass ≡ Some (whose_of end) }
        ensures { result ≡ record {
          queue = end.queue;
          capacity = end.capacity;
          conn = end.conn;
          chronicle = end.chronicle;
          history = end.history;
          added = end.added;
          full_finds = end.full_finds;
          added_at_find = end.added_at_find;
          is_closed = false;
        } }
    {
        Outbox {
            end,
            is_closed: false,
            link,
            pass,
            waker,
        }
    }

    /// How many items may wait.
    pub fn capacity(&self) -> usize
        ensures { result ≡ self.now.capacity }
    {
        self.end.capacity()
    }

    /// The number of the connection whose items it carries.
    pub fn conn(&self) -> u64
        ensures { result ≡ self.now.conn }
    {
        self.end.conn()
    }

    /// Whether nothing more may be added.
    pub fn is_closed(&self) -> bool
        ensures { result ≡ self.now.is_closed }
    {
        self.is_closed
    }

    /// Closes it: nothing more may be added, and who waits at the drain is woken, to be told so once all was taken. It takes no
    /// memory.
    pub fn close(&mut self)
        ensures { self.new ≡ record self.old { is_closed = true } }
    {
        self.is_closed = true;
        self.link.is_shut.store(true, Ordering::SeqCst);
        self.waker.unpark();
    }

    /// Closes it, and hands it over to its drain, with a history that vouches for what was added: it owes the connection nothing more,
    /// and what was added begins what it owes, and is all of that unless the queue was found full. It cut the connection short only where
    /// the queue was found full, or the connection is lost, which is told with it. Who waits at the drain is woken, to be told so once all
    /// was taken.
    pub fn hand_over(self, history: H, is_lost: bool)
        requires vouches { Vouches H.owed H.is_over H.was_cut history self.conn self.added
            self.full_finds is_lost }
        requires chronicle { Belongs H.is_of history self.chronicle }
    {
        let Self {
            end,
            is_closed: _,
            link,
            mut pass,
            waker,
        } = self;
        link.put(&mut pass, Farewell::new(end, Some(history), is_lost));
        link.is_shut.store(true, Ordering::SeqCst);
        waker.unpark();
    }

    /// Adds the item at the back, unless a step finds the capacity waiting. The item is stamped for this connection and for the
    /// place after the last that was added, by a history that begins with the one before and is of the outbox's chronicle, if it has one; and
    /// the outbox isn't closed ([`Outbox::is_closed`]). It takes no memory and locks nothing, but may spin while the other end is inside its step.
    ///
    /// It doesn't wake the one who waits at the drain: see [`Outbox::wake`].
    ///
    /// # Errors
    /// [`Full`] where the queue held its capacity: the item comes back, and nothing was added.
    pub fn add<R: Wait>(&mut self, rt: &R, item: Stamped<T, H>) -> Result<(), Full<Stamped<T, H>>>
        requires open { self.old.is_closed ≡ false }
        requires conn { item.conn ≡ self.old.conn }
        requires place { item.place ≡ length self.old.added }
        requires history { Grows H.begins self.old.history (Some item.history) }
        requires chronicle { Belongs H.is_of item.history self.old.chronicle }
        ensures { MatchResult result
            (λ _. self.new ≡ record self.old {
              history = Some item.history;
              added = self.old.added ++ item.item ∷ [];
            })
            (λ full. (full.0 ≡ item)
            × (self.new ≡ record self.old {
              full_finds = self.old.full_finds + 1;
              added_at_find = length self.old.added;
            })
            × (self.old.capacity ≤ length self.old.added)) }
    {
        match self.end.push(rt, item) {
            Ok(()) => Ok(()),
            Err(back) => Err(Full(back)),
        }
    }

    /// Wakes the one who waits at the drain. Who adds several items wakes once, after the last; until then a sleeping writer may
    /// sleep on. Where nobody sleeps it costs no system call.
    pub fn wake(&self) {
        self.waker.unpark();
    }

    /// Stamps the next item that a history owes the connection: the one at the place after the last that was added.
    pub fn stamp(&self, item: T, history: H) -> Stamped<T, H>
        requires { slice_get (H.owed history self.now.conn) (length self.now.added)
            ≡ Some item }
        ensures { result ≡ record {
          item = item;
          conn = self.now.conn;
          place = length self.now.added;
          history = history;
        } }
    {
        self.end.stamp(item, history)
    }

    /// Shows what always holds of an outbox: what was added begins what the history of the last item owes the connection; that
    /// history is of its chronicle; where nothing was added, the queue was never found full and no history was seen; and where it was
    /// found full, as many items were added as it holds, or more.
    pub fn shows(&self)
        ensures owed { Owes H.owed self.now.history self.now.conn self.now.added }
        ensures chronicle { IsOf H.is_of self.now.history self.now.chronicle }
        ensures finds { self.now.added ≡ [] → self.now.full_finds ≡ 0 }
        ensures room { 0 < self.now.full_finds → self.now.capacity ≤ length self.now.added }
        ensures begun { self.now.added ≡ [] → self.now.history ≡ None }
    {
        self.end.shows();
    }

    pub(crate) fn into_end(self) -> Producer<T, H>
        ensures { self ≡ record {
          queue = result.queue;
          capacity = result.capacity;
          conn = result.conn;
          chronicle = result.chronicle;
          history = result.history;
          added = result.added;
          full_finds = result.full_finds;
          added_at_find = result.added_at_find;
          is_closed = self.is_closed;
        } }
    {
        let Self {
            end,
            is_closed: _,
            link: _,
            pass: _,
            waker: _,
        } = self;
        end
    }
}

impl<T: Drop, H: Owed<T>> Drop for Outbox<T, H> {
    fn drop(self) {
        let Self {
            end,
            is_closed: _,
            link,
            mut pass,
            waker,
        } = self;
        link.put(&mut pass, Farewell::new(end, None, false));
        link.is_shut.store(true, Ordering::SeqCst);
        waker.unpark();
    }
}
