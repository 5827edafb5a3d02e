//! The end that adds, on its way to the end that takes.
ghost use Rattle.std.specs.Prelude.{◌≡◌};
ghost use Rattle.outbox_queue.specs.Ends.{IsOf, IsVouched};

use crate::ends::Producer;
use crate::owed::Owed;
use std::marker::Model;

/// The end that adds, once nothing more is added, a history that vouches for what was added, if one does, and whether the connection
/// was lost.
#[derive(Drop)]
pub struct Farewell<T, H: Owed<T>> {
    end: Producer<T, H>,
    history: Option<H>,
    is_lost: bool,
}

impl<T, H: Owed<T>> Model for Farewell<T, H> {
    ghost use Rattle.outbox_queue.specs.Ends.{Parting};
    ghost use Rattle.outbox_queue.specs.body.PartingInvariant.{IsParting};

    ghost Value = { Parting T H };

    ghost view = { λ f. record { end = f.end; history = f.history; is_lost = f.is_lost } };

    ghost invariant = { IsParting H.owed H.is_over H.was_cut H.is_of };
}

impl<T: Drop, H: Owed<T>> Farewell<T, H> {
    /// The end, with a history that vouches for what was added, if one does, and for whether the connection was lost.
    pub fn new(end: Producer<T, H>, history: Option<H>, is_lost: bool) -> Farewell<T, H>
        requires vouched { IsVouched H.owed H.is_over H.was_cut history end.conn end.added
            end.full_finds is_lost }
        requires chronicle { IsOf H.is_of history end.chronicle }
        ensures { result ≡ record { end = end; history = history; is_lost = is_lost } }
    {
        Farewell {
            end,
            history,
            is_lost,
        }
    }

    /// The end, the history, and whether the connection was lost.
    pub fn into_parts(self) -> (Producer<T, H>, Option<H>, bool)
        ensures end { result.0 ≡ self.end }
        ensures history { result.1 ≡ self.history }
        ensures lost { result.2 ≡ self.is_lost }
        ensures vouched { IsVouched H.owed H.is_over H.was_cut self.history self.end.conn
            self.end.added self.end.full_finds self.is_lost }
        ensures chronicle { IsOf H.is_of self.history self.end.chronicle }
    {
        let Farewell {
            end,
            history,
            is_lost,
        } = self;
        (end, history, is_lost)
    }
}
