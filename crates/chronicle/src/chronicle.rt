//! A chronicle and its tokens.
ghost use Rattle.std.specs.Prelude.{◌≡◌, Some, None, IfOk, true};
ghost use Rattle.crossbeam_queue.specs.Passes.{view as shown, IsPassOf, IsSamePass};
ghost use Rattle.chronicle.specs.Recorded.{Reaches};
ghost use Rattle.chronicle.specs.body.TokenRule.{owner, token};

use crate::history::History;
use crate::rule::{BeginsOwner, Checks, ChronicleView, Naming, Records, Shows};
use crossbeam_queue::{Pass, RuledArrayQueue};
use std::alloc::{AllocError, Global};
use std::marker::{Brand, Model};

// Nothing is ever pushed to it: it is there for its rule.
type Queue<H> = RuledArrayQueue<(), ChronicleView<H>, BeginsOwner>;

// What the chronicle, or one token, knows. It takes no bytes.
type Knowledge<H> = Pass<(), ChronicleView<H>>;

/// A history that its owner makes longer. Contracts see which chronicle it is, and the history, if one was recorded.
#[derive(Drop)]
pub struct Chronicle<H: History> {
    queue: Queue<H>,
    place: Knowledge<H>,
}

impl<H: History> Model for Chronicle<H> {
    ghost use Rattle.std.specs.Prelude.{◌≡◌};
    ghost use Rattle.crossbeam_queue.specs.Passes.{view as shown, IsPassOf};
    ghost use Rattle.chronicle.specs.Recorded.{Recorded};
    ghost use Rattle.chronicle.specs.body.TokenRule.{owner};

    ghost Value = { Recorded H };

    ghost view = { λ c. record {
      chronicle = c.place.table_id;
      history = (shown c.place).history;
    } };

    ghost invariant = { λ c. IsPassOf c.queue c.place
        × (shown c.place ≡ owner (shown c.place).history (shown c.place).checked) };
}

/// That a chronicle had this history. It takes no bytes. Contracts see which chronicle, and the history.
#[derive(Drop)]
pub struct HistoryToken<H> {
    place: Knowledge<H>,
}

impl<H> Model for HistoryToken<H> {
    ghost use Rattle.std.specs.Prelude.{◌≡◌, []};
    ghost use Rattle.crossbeam_queue.specs.Passes.{view as shown};
    ghost use Rattle.chronicle.specs.Recorded.{Recorded};
    ghost use Rattle.chronicle.specs.body.TokenRule.{token};

    ghost Value = { Recorded H };

    ghost view = { λ t. record {
      chronicle = t.place.table_id;
      history = (shown t.place).history;
    } };

    ghost invariant = { λ t. (t.place.me.1 ≡ [])
        × (shown t.place ≡ token (shown t.place).history) };
}

impl<H: History> Chronicle<H> {
    /// A chronicle in which nothing is recorded.
    ///
    /// # Errors
    /// Where a growth of memory was refused. All that it and its tokens ever take is taken here.
    pub fn new(alloc: Global) -> Result<Chronicle<H>, AllocError>
        ensures { IfOk result (λ c. c.history ≡ None) }
    {
        let (queue, place) = Queue::ruled(alloc, 1)?;
        Ok(Chronicle { queue, place })
    }

    /// Records the history, which the one before has to begin, and gives a token of it.
    pub fn record(&mut self, history: &H) -> HistoryToken<H>
        requires { Reaches H.begins self.old.history (Some history.now) }
        ensures chronicle { self.new ≡ record self.old { history = Some history.now } }
        ensures token { result ≡ self.new }
    {
        HistoryToken {
            place: cut::<H, Brand>(&self.queue, &mut self.place, history),
        }
    }

    /// Takes in a token of this chronicle, and shows that its history begins the chronicle's.
    pub fn check(&mut self, token: HistoryToken<H>)
        requires { token.chronicle ≡ self.old.chronicle }
        ensures same { self.new ≡ self.old }
        ensures begins { Reaches H.begins token.history self.new.history }
    {
        let HistoryToken { place } = token;
        self.queue.absorb::<Checks>(&mut self.place, place);
        self.queue.learn_as::<Shows>(&mut self.place);
    }
}

// Cuts a token of the next history, which the caller picks, off the owner's place.
fn cut<H: History, J: Naming<H>>(
    queue: &Queue<H>,
    place: &mut Knowledge<H>,
    history: &H,
) -> Knowledge<H>
    requires queue { IsPassOf queue.now place.old }
    requires owns { (shown place.old).owns ≡ true }
    requires next { J.next ≡ Some history.now }
    requires longer { Reaches H.begins (shown place.old).history (Some history.now) }
    ensures queue { IsSamePass place.old place.new × IsPassOf queue.now result }
    ensures owner { shown place.new ≡ owner (Some history.now) (shown place.old).checked }
    ensures token { shown result ≡ token (Some history.now) }
{
    let _ = history;
    queue.another::<Records<J>>(place)
}
