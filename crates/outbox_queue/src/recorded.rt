//! Histories that a chronicle records, and a drain of them.
ghost use Rattle.std.specs.Prelude.{◌≡◌, Some};
ghost use Rattle.chronicle.specs.Recorded.{Reaches};
ghost use Rattle.outbox_queue.specs.Ends.{IsOf};
ghost use Rattle.outbox_queue.specs.Tied.{IsTied, history_of};

use crate::drain::Drain;
use crate::owed::Owed;
use chronicle::{Chronicle, History, HistoryToken};
use std::marker::{Model, PhantomData};
use std::snapshot::Snapshot;

/// A history, as a chronicle knows it. It takes no bytes.
#[derive(Drop)]
pub struct Moment<T, H> {
    of: Snapshot<H>,
    items: PhantomData<T>,
}

impl<T, H> Model for Moment<T, H> {
    ghost Value = { H };

    ghost view = { λ m. m.of.value };
}

impl<T, H: Owed<T>> History for Moment<T, H> {
    ghost begins = { λ h k. H.begins h k };

    ghost begins_itself = { λ h. H.begins_itself h };

    ghost begins_on = { λ h k l first next. H.begins_on h k l first next };
}

/// A chronicle of such histories.
pub type Book<T, H> = Chronicle<Moment<T, H>>;

/// A history as its chronicle recorded it. It takes no bytes, and [`Recorded::by`] alone makes one. Contracts see which chronicle it
/// is, and the history.
#[derive(Drop)]
pub struct Recorded<T, H> {
    of: Snapshot<H>,
    token: HistoryToken<Moment<T, H>>,
}

impl<T, H> Model for Recorded<T, H> {
    ghost use Rattle.std.specs.Prelude.{◌≡◌, Some};
    ghost use Rattle.outbox_queue.specs.Tied.{Kept};

    ghost Value = { Kept H };

    ghost view = { λ r. record { chronicle = r.token.chronicle; history = r.of.value } };

    ghost invariant = { λ r. r.token.history ≡ Some r.of.value };
}

impl<T, H: Owed<T>> Owed<T> for Recorded<T, H> {
    ghost use Rattle.std.specs.Prelude.{◌≡◌};

    ghost begins = { λ h k. H.begins h.history k.history };

    ghost owed = { λ h conn. H.owed h.history conn };

    ghost begins_itself = { λ h. H.begins_itself h.history };

    ghost begins_on = { λ h k l first next. H.begins_on h.history k.history l.history first next };

    ghost owes_on = { λ h k conn first. H.owes_on h.history k.history conn first };

    ghost is_of = { λ h chronicle. h.chronicle ≡ chronicle };

    ghost is_over = { λ h conn. H.is_over h.history conn };

    ghost was_cut = { λ h conn. H.was_cut h.history conn };
}

impl<T, H: Owed<T>> Recorded<T, H> {
    /// Records the history, which the one before has to begin.
    pub fn by(chronicle: &mut Book<T, H>, history: &H) -> Recorded<T, H>
        requires { Reaches H.begins chronicle.old.history (Some history.now) }
        ensures chronicle { chronicle.new ≡ record chronicle.old { history = Some history.now } }
        ensures history { result ≡ record {
          chronicle = chronicle.old.chronicle;
          history = history.now;
        } }
    {
        let moment = Moment {
            of: Snapshot::of(history),
            items: PhantomData,
        };
        Recorded {
            of: Snapshot::of(history),
            token: chronicle.record(&moment),
        }
    }

    // Its chronicle takes it in, and shows that it begins what the chronicle has.
    fn check(self, chronicle: &mut Book<T, H>)
        requires { self.chronicle ≡ chronicle.old.chronicle }
        ensures same { chronicle.new ≡ chronicle.old }
        ensures begins { Reaches H.begins (Some self.history) chronicle.old.history }
    {
        let Recorded { of: _, token } = self;
        chronicle.check(token);
    }
}

/// Takes in what a drain saw last, if anything ([`Drain::into_seen`]), which is of this chronicle ([`Drain::shows`]), and shows that it
/// begins the history that the chronicle has. So a drain needn't be kept to be tied ([`tie`]) later.
pub fn check_seen<T, H: Owed<T>>(chronicle: &mut Book<T, H>, seen: Option<Recorded<T, H>>)
    requires { IsOf (λ h name. h.chronicle ≡ name) seen (Some chronicle.old.chronicle) }
    ensures same { chronicle.new ≡ chronicle.old }
    ensures begins { Reaches H.begins (history_of seen) chronicle.old.history }
{
    match seen {
        Some(recorded) => recorded.check(chronicle),
        None => {}
    }
}

/// Ties a drain to the chronicle of its histories: what it saw begins the history that the chronicle has, and what was taken begins
/// what that history owes its connection. It doesn't matter in which threads the two were meanwhile.
pub fn tie<T: Drop, H: Owed<T>>(chronicle: &mut Book<T, H>, drain: Drain<T, Recorded<T, H>>)
    requires { drain.chronicle ≡ Some chronicle.old.chronicle }
    ensures same { chronicle.new ≡ chronicle.old }
    ensures tied { IsTied H.begins H.owed chronicle.old.history drain }
{
    drain.shows();
    check_seen(chronicle, drain.into_seen());
}
