//! The two ends of a queue of numbers, and what is done with them.
ghost use Rattle.std.specs.Prelude.{◌≡◌, None, [], length};

use crate::numbers::Numbers;
use outbox_queue::{Drain, Full, Outbox};
use std::marker::Model;
use std::sync::Wait;

/// The adding end, and how many of the history's numbers were added.
#[derive(Drop)]
pub struct Adder {
    outbox: Outbox<u64, Numbers>,
    numbers: Numbers,
    added: u64,
}

impl Model for Adder {
    ghost use Rattle.std.specs.Prelude.{ℕ, ◌≡◌, Some, length};
    ghost use Rattle.outbox_queue.specs.Rule.{Grows};
    ghost use Rattle.outbox_queue.specs.Ends.{Sending};
    ghost use Rattle.cases_outbox.specs.Counting.{Same};
    ghost use Rattle.cases_outbox.specs.declared.numbers.Numbers.{Numbers};

    ghost Value = { Sending ℕ Numbers };

    ghost view = { λ a. a.outbox };

    ghost invariant = { λ a. (length a.outbox.added ≡ a.added)
        × Grows Same a.outbox.history (Some a.numbers) };
}

/// What came of adding the next number.
#[derive(Drop)]
pub enum Added {
    /// It was added.
    Yes(u64),
    /// The queue held its capacity, and the number came back.
    Full(u64),
    /// The outbox is closed, or the history owes no more.
    No,
}

impl Adder {
    /// Adds nothing yet.
    pub fn new(outbox: Outbox<u64, Numbers>, numbers: Numbers) -> Adder
        requires added { outbox.added ≡ [] }
        requires history { outbox.history ≡ None }
        ensures { result ≡ outbox }
    {
        Adder {
            outbox,
            numbers,
            added: 0,
        }
    }

    /// Adds the next number. It wakes nobody.
    pub fn add<R: Wait>(&mut self, rt: &R) -> Added
        ensures { self.new.queue ≡ self.old.queue }
    {
        if self.outbox.is_closed() || self.added >= self.numbers.count {
            return Added::No;
        }
        let Some(number) = self.numbers.first.checked_add(self.added) else {
            return Added::No;
        };
        let item = self.outbox.stamp(number, self.numbers);
        match self.outbox.add(rt, item) {
            Ok(()) => {
                self.added += 1;
                Added::Yes(number)
            }
            Err(Full(back)) => Added::Full(back.into_item()),
        }
    }

    /// Wakes who waits at the drain.
    pub fn wake(&self) {
        self.outbox.wake();
    }

    /// Closes the outbox.
    pub fn close(&mut self)
        ensures { self.new.queue ≡ self.old.queue }
    {
        self.outbox.close();
    }

    /// Hands the outbox over, if all that is owed was added, as one whose connection was lost where the history cut it; else drops it.
    /// True where it was handed over.
    pub fn part(self) -> bool {
        let Adder {
            outbox,
            numbers,
            added,
        } = self;
        if added < numbers.count {
            return false;
        }
        outbox.shows();
        outbox.hand_over(numbers, numbers.is_cut);
        true
    }

    /// Whether it is closed, its connection, and its capacity.
    pub fn facts(&self) -> (bool, u64, usize) {
        (
            self.outbox.is_closed(),
            self.outbox.conn(),
            self.outbox.capacity(),
        )
    }

    /// The outbox itself.
    pub fn into_outbox(self) -> Outbox<u64, Numbers>
        ensures { result ≡ self }
    {
        self.outbox
    }
}

/// Both ends of one queue.
#[derive(Drop)]
pub struct Ends {
    pub adder: Adder,
    pub drain: Drain<u64, Numbers>,
    ghost one_pair: { adder.queue ≡ drain.queue },
}
