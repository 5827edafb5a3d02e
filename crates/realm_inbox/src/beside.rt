//! Receives of an inbox with a poster of it in the same hand: where none is left, all that was posted at the seat was received.
ghost use Rattle.std.specs.Prelude.{◌≡◌, [], ◌∷◌, ◌++◌, None, true, IfErr, IfNone, IfSome, MatchOption, MatchResult};
ghost use mathlib.Core.List.{IsPrefix};
ghost use Rattle.crossbeam_channel.specs.Claims.{view, IsSeatAt};
ghost use Rattle.crossbeam_channel.specs.Ends.{sends_on, receives_on};
ghost use Rattle.wamp_ids.specs.Numbers.{seat_of};
ghost use Rattle.realm_inbox.specs.Seats.{IsNext, IsHomed, at_seat};
ghost use Rattle.realm_inbox.specs.Behind.{IsBehind};
ghost use Rattle.realm_inbox.specs.SeatLines.{waiting};
ghost use Rattle.realm_inbox.specs.InTurn.{Receipt};
ghost use Rattle.realm_inbox.specs.Unchanged.{IsSamePoster};
ghost use Rattle.realm_inbox.specs.Ends.{place_of as place_in, posted_in, received_in, number_in, reads_any, posts_any};

use crate::ends::{Inbox, Poster, Receiving, Seat, Sending, Ticket};
use crate::letter::Post;
use crate::rule::{Beside, ReceivesBeside};
use crate::transport::Shut;
use crossbeam_channel::TryRecvError;
use std::snapshot::Snapshot;
use std::sync::Wait;

impl<S: Shut> Inbox<S> {
    ghost use Rattle.realm_inbox.specs.EndViews.{received, capacity, posted, poster_conn, home_of, inbox_of, inbox_of_poster};

    /// A post of any seat, as [`Inbox::try_receive`] gives it. `None` once nothing is left of the poster's seat: the channel was
    /// empty at one moment of the call, and nothing of the seat waited in its line. So all that was posted there was received of it. The
    /// two are of one inbox, and the poster doesn't change.
    pub fn receive_beside<R: Wait>(&mut self, rt: &R, poster: &mut Poster<S>) -> Option<Post<S>>
        requires inbox { inbox_of self.old ≡ inbox_of_poster poster.old }
        ensures given { MatchOption result (received self.new ≡ received self.old)
            (λ p. received self.new ≡ received self.old ++ p ∷ []) }
        ensures in_turn { IfSome result (λ p. IsNext (received self.old) p) }
        ensures home { IfSome result (λ p. IsHomed (home_of self.old) p) }
        ensures behind { IfSome result (λ p. IsBehind (received self.old) p) }
        ensures all { IfNone result
            (at_seat (seat_of (poster_conn poster.new)) (received self.new) ≡ posted poster.new) }
        ensures poster { IsSamePoster poster.old poster.new }
        ensures same { (inbox_of self.new ≡ inbox_of self.old)
            × (capacity self.new ≡ capacity self.old) }
    {
        if let Some(post) = self.give_waiting(poster.seat.number) {
            return Some(post);
        }
        self.take_beside(rt, poster)
    }

    /// Receives what is left and drops it, until all that was posted at the poster's seat was received of it. The two are of one
    /// inbox, and the poster doesn't change.
    ///
    /// It ends once nothing is posted any more, at any seat: who posts on there can keep it for as long.
    pub fn drain_beside<R: Wait>(&mut self, rt: &R, poster: &mut Poster<S>)
        requires inbox { inbox_of self.old ≡ inbox_of_poster poster.old }
        ensures all { at_seat (seat_of (poster_conn poster.new)) (received self.new) ≡ posted poster.new }
        ensures more { IsPrefix (received self.old) (received self.new) }
        ensures poster { IsSamePoster poster.old poster.new }
        ensures same { (inbox_of self.new ≡ inbox_of self.old)
            × (capacity self.new ≡ capacity self.old) }
    {
        for _ in rt.forever() {
            match self.receive_beside(rt, poster) {
                Some(_) => {}
                None => return,
            }
        }
        unreachable!()
    }

    // The first post that waits at a place, or at that of the post that stands aside; before a stop one of those that wait elsewhere.
    // Where none does, none stands aside either.
    fn give_waiting(&mut self, place: u64) -> Option<Post<S>>
        ensures given { MatchOption result (received self.new ≡ received self.old)
            (λ p. received self.new ≡ received self.old ++ p ∷ []) }
        ensures in_turn { IfSome result (λ p. IsNext (received self.old) p) }
        ensures home { IfSome result (λ p. IsHomed (home_of self.old) p) }
        ensures behind { IfSome result (λ p. IsBehind (received self.old) p) }
        ensures none { IfNone result
            ((waiting self.new.lines place ≡ []) × (self.new.lines.aside ≡ None)) }
        ensures same { (inbox_of self.new ≡ inbox_of self.old)
            × (capacity self.new ≡ capacity self.old) }
    {
        let place = self.lines.stop_last(self.lines.place_to_empty(place));
        let first = self.lines.pop(place)?;
        self.turns.note_given(place, &first);
        self.given.add(Snapshot::of(&first));
        Some(first)
    }

    // The next post of the channel, or the one that waits in front of it. None where the channel was empty.
    fn take_beside<R: Wait>(&mut self, rt: &R, poster: &mut Poster<S>) -> Option<Post<S>>
        requires inbox { inbox_of self.old ≡ inbox_of_poster poster.old }
        requires free { waiting self.old.lines (seat_of (poster_conn poster.old)) ≡ [] }
        requires open { self.old.lines.aside ≡ None }
        ensures given { MatchOption result (received self.new ≡ received self.old)
            (λ p. received self.new ≡ received self.old ++ p ∷ []) }
        ensures in_turn { IfSome result (λ p. IsNext (received self.old) p) }
        ensures home { IfSome result (λ p. IsHomed (home_of self.old) p) }
        ensures behind { IfSome result (λ p. IsBehind (received self.old) p) }
        ensures all { IfNone result
            (at_seat (seat_of (poster_conn poster.new)) (received self.new) ≡ posted poster.new) }
        ensures poster { IsSamePoster poster.old poster.new }
        ensures same { (inbox_of self.new ≡ inbox_of self.old)
            × (capacity self.new ≡ capacity self.old) }
    {
        let taken = match poster.seat.receive(rt, &self.receiver, &mut self.pass) {
            Ok(taken) => taken,
            Err(_) => return None,
        };
        let (place, first) = self.lines.exchange(taken);
        self.turns.note_given(place, &first);
        self.given.add(Snapshot::of(&first));
        Some(first)
    }
}

impl<S: Shut> Seat<S> {
    ghost use Rattle.realm_inbox.specs.EndViews.{posted_at, seat_number, inbox_of_seat};

    // Receives by the reader's pass, which is of its inbox, with its own beside it.
    fn receive<R: Wait>(
        &mut self,
        rt: &R,
        receiver: &Receiving<S>,
        reading: &mut Ticket<S>,
    ) -> Result<Post<S>, TryRecvError>
        requires place { place_in reading.old ≡ inbox_of_seat self.old }
        requires reads { IsSeatAt (receives_on receiver.now) reading.old
            × (reads_any (view reading.old) ≡ true) }
        ensures found { MatchResult result
            (λ p. Receipt (view reading.old) p (view reading.new))
            (λ _. view reading.new ≡ view reading.old) }
        ensures all { IfErr result (λ _. at_seat (seat_number self.new)
            (received_in (view reading.old)) ≡ posted_at self.new) }
        ensures reading { IsSeatAt (receives_on receiver.now) reading.new }
        ensures same { (seat_number self.new ≡ seat_number self.old)
            × (posted_at self.new ≡ posted_at self.old)
            × (inbox_of_seat self.new ≡ inbox_of_seat self.old) }
    {
        receive_passes(rt, &self.sender, receiver, reading, &mut self.pass)
    }
}

// Receives by the reader's pass, with a seat's beside it. Where none was found, all that was posted at the seat had been received.
fn receive_passes<S: Shut, R: Wait>(
    rt: &R,
    sender: &Sending<S>,
    receiver: &Receiving<S>,
    reading: &mut Ticket<S>,
    posting: &mut Ticket<S>,
) -> Result<Post<S>, TryRecvError>
    requires reading { IsSeatAt (sends_on sender.now) reading.old
        × IsSeatAt (receives_on receiver.now) reading.old
        × (reads_any (view reading.old) ≡ true) }
    requires posting { IsSeatAt (sends_on sender.now) posting.old
        × (posts_any (view posting.old) ≡ true) }
    ensures found { MatchResult result
        (λ p. Receipt (view reading.old) p (view reading.new))
        (λ _. view reading.new ≡ view reading.old) }
    ensures all { IfErr result (λ _.
        at_seat (number_in (view posting.old)) (received_in (view reading.old))
        ≡ posted_in (view posting.old)) }
    ensures reading { IsSeatAt (receives_on receiver.now) reading.new }
    ensures posting { IsSeatAt (sends_on sender.now) posting.new
        × (view posting.new ≡ view posting.old) }
{
    let lent = sender.another::<Beside>(posting);
    sender.absorb::<Beside>(reading, lent);
    let found = receiver.try_recv_as::<ReceivesBeside, R>(rt, reading);
    let back = sender.another::<Beside>(reading);
    sender.absorb::<Beside>(posting, back);
    found
}
