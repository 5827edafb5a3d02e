//! The end of an inbox that posts stops.
ghost use Rattle.std.specs.Prelude.{◌≡◌, ◌≢◌, ◌+◌, [], ◌∷◌, ◌++◌, length, true, if◌then◌else◌, MatchResult};
ghost use mathlib.Core.List.{IsPrefix};
ghost use Rattle.crossbeam_channel.specs.Claims.{view, IsSeatAt};
ghost use Rattle.crossbeam_channel.specs.Ends.{sends_on};
ghost use Rattle.wamp_ids.specs.Numbers.{seat_of};
ghost use Rattle.ghost_state.specs.GhostList.{items_of};
ghost use Rattle.realm_inbox.specs.Behind.{told_by};
ghost use Rattle.realm_inbox.specs.Ends.{home_in, place_of as place_in, posted_in, received_in, shown_in, told_in, number_in, is_door, reads_any, posts_any};

use crate::bells::{Bells, send};
use crate::compared::compare_passes;
use crate::ends::{Inbox, Poster, Seat, Sending, Ticket};
use crate::letter::{Halt, Post, SeatCount};
use crate::rule::{Beside, Stops};
use crate::transport::Shut;
use ghost_state::{GhostCount, GhostList};
use std::alloc::{AllocError, Global};
use std::snapshot::Snapshot;
use std::sync::Wait;
use wamp_ids::Conn;

/// Makes posters, and posts stops. While it lives the inbox has a sender.
///
/// Contracts see which seats it was shown, with how many acts had been posted there then; how many stops it has posted, and what it had
/// been shown by then; and which inbox it is of.
pub struct Door<S: Shut> {
    pub(crate) sender: Sending<S>,
    pub(crate) bells: Bells,
    pub(crate) shown: GhostList<SeatCount>,
    pub(crate) pass: Ticket<S>,
    ghost at: { IsSeatAt (sends_on sender) pass },
    ghost sits: { is_door (view pass) ≡ true },
    ghost saw: { items_of shown ≡ shown_in (view pass) },
}

impl<S: Shut> Door<S> {
    ghost use Rattle.realm_inbox.specs.EndViews.{posted, posted_at, poster_conn, seat_number, shown, told, stops, inbox_of_poster, inbox_of_seat, inbox_of_door};
    ghost use Rattle.realm_inbox.specs.Unchanged.{IsSamePoster};

    /// A poster of the connection at its seat, whose number is [`wamp_ids::seat`] of it. The seat is one of this door's inbox. Where
    /// the caller can't show this, [`Seat::into_poster`] makes one of the seat alone.
    ///
    /// # Errors
    /// None: it takes no memory and is never refused.
    pub fn poster(
        &self,
        _alloc: Global,
        seat: Seat<S>,
        conn: Conn,
    ) -> Result<Poster<S>, (AllocError, Seat<S>)>
        requires own { seat_of conn ≡ seat_number seat }
        requires inbox { inbox_of_seat seat ≡ inbox_of_door self.now }
        ensures conn { MatchResult result (λ p. poster_conn p ≡ conn) (λ _. ⊥) }
        ensures posted { MatchResult result (λ p. posted p ≡ posted_at seat) (λ _. ⊥) }
        ensures same { MatchResult result (λ p. inbox_of_poster p ≡ inbox_of_door self.now)
            (λ _. ⊥) }
    {
        Ok(Poster {
            conn,
            seat,
            weights: GhostList::new(),
            returned: GhostCount::new(),
        })
    }

    /// Is shown a poster, and so how many acts were posted at its seat: each stop that it posts from then on comes behind those. The two
    /// are of one inbox, and the poster doesn't change; nobody waits.
    pub fn sees(&mut self, poster: &mut Poster<S>)
        requires inbox { inbox_of_door self.old ≡ inbox_of_poster poster.old }
        ensures shown { shown self.new ≡ shown self.old
            ++ (seat_of (poster_conn poster.new), length (posted poster.new)) ∷ [] }
        ensures told { told self.new ≡ told self.old }
        ensures poster { IsSamePoster poster.old poster.new }
        ensures same { inbox_of_door self.new ≡ inbox_of_door self.old }
    {
        let count = poster.seat.show(&mut self.pass);
        self.shown.add(count);
    }

    /// Posts a stop, and waits while the inbox is full. False where the inbox is gone; nothing was posted then.
    ///
    /// The stop comes behind what the door was shown: who receives it has received all that before.
    pub fn stop<R: Wait>(&mut self, rt: &R) -> bool
        ensures posted { stops self.new ≡ (if result then stops self.old + 1 else stops self.old) }
        ensures told { told self.new
            ≡ (if result then told self.old ++ shown self.old ∷ [] else told self.old) }
        ensures shown { shown self.new ≡ shown self.old }
        ensures same { inbox_of_door self.new ≡ inbox_of_door self.old }
    {
        let stop = Post::Stop(Halt {
            behind: Snapshot::of(&self.shown),
        });
        if let Err(back) = send::<_, _, _, Stops, R>(
            rt,
            &self.sender,
            &self.bells,
            &mut self.pass,
            stop,
        ) {
            drop(back);
            return false;
        }
        true
    }

    // Tells what the reader's pass, which is of its inbox, and its own know together.
    fn compare(&mut self, reading: &mut Ticket<S>)
        requires place { place_in reading.old ≡ inbox_of_door self.old }
        requires reads { (reading.old.me.1 ≡ []) × (reads_any (view reading.old) ≡ true) }
        ensures begins { IsPrefix (told_by (received_in (view reading.old))) (told self.new) }
        ensures reading { (place_in reading.new ≡ place_in reading.old)
            × (reading.new.me.1 ≡ []) × (view reading.new ≡ view reading.old) }
        ensures same { (shown self.new ≡ shown self.old) × (told self.new ≡ told self.old)
            × (inbox_of_door self.new ≡ inbox_of_door self.old) }
    {
        compare_passes(&self.sender, reading, &mut self.pass);
    }
}

impl<S: Shut> Inbox<S> {
    ghost use Rattle.realm_inbox.specs.EndViews.{received, capacity, shown, told, inbox_of, inbox_of_door};

    /// Tells what the stops told that were received: it begins what the door's stops told. So each of them was one of the door's. The
    /// two are of one inbox, and neither changes; nobody waits.
    pub fn compare_stops(&mut self, door: &mut Door<S>)
        requires inbox { inbox_of self.old ≡ inbox_of_door door.old }
        ensures begins { IsPrefix (told_by (received self.new)) (told door.new) }
        ensures door { (shown door.new ≡ shown door.old) × (told door.new ≡ told door.old)
            × (inbox_of_door door.new ≡ inbox_of_door door.old) }
        ensures same { (received self.new ≡ received self.old)
            × (inbox_of self.new ≡ inbox_of self.old)
            × (capacity self.new ≡ capacity self.old) }
    {
        door.compare(&mut self.pass);
    }
}

impl<S: Shut> Seat<S> {
    ghost use Rattle.realm_inbox.specs.EndViews.{posted_at, seat_number, inbox_of_seat};

    // Shows the door's pass, which is of its inbox, how many acts were posted here.
    fn show(&mut self, door: &mut Ticket<S>) -> Snapshot<SeatCount>
        requires place { place_in door.old ≡ inbox_of_seat self.old }
        requires door { (door.old.me.1 ≡ []) × (is_door (view door.old) ≡ true) }
        ensures count { result.value ≡ (seat_number self.new, length (posted_at self.new)) }
        ensures shown { shown_in (view door.new) ≡ shown_in (view door.old)
            ++ (seat_number self.new, length (posted_at self.new)) ∷ [] }
        ensures door { (place_in door.new ≡ place_in door.old) × (door.new.me.1 ≡ [])
            × (is_door (view door.new) ≡ true)
            × (told_in (view door.new) ≡ told_in (view door.old)) }
        ensures same { (seat_number self.new ≡ seat_number self.old)
            × (posted_at self.new ≡ posted_at self.old)
            × (inbox_of_seat self.new ≡ inbox_of_seat self.old) }
    {
        show_pass(&self.sender, door, &mut self.pass);
        let count = SeatCount {
            number: self.number,
            posted: Snapshot::of(&self.posted),
        };
        Snapshot::of(&count)
    }
}

// Shows the door's pass what a seat's knows.
fn show_pass<S: Shut>(sender: &Sending<S>, door: &mut Ticket<S>, posting: &mut Ticket<S>)
    requires door { IsSeatAt (sends_on sender.now) door.old × (is_door (view door.old) ≡ true) }
    requires posting { IsSeatAt (sends_on sender.now) posting.old
        × (posts_any (view posting.old) ≡ true) }
    requires number { number_in (view posting.old) ≢ 0 }
    ensures shown { shown_in (view door.new) ≡ shown_in (view door.old)
        ++ (number_in (view posting.old), length (posted_in (view posting.old))) ∷ [] }
    ensures door { IsSeatAt (sends_on sender.now) door.new × (is_door (view door.new) ≡ true)
        × (told_in (view door.new) ≡ told_in (view door.old))
        × (home_in (view door.new) ≡ home_in (view door.old)) }
    ensures posting { IsSeatAt (sends_on sender.now) posting.new
        × (view posting.new ≡ view posting.old) }
{
    let lent = sender.another::<Beside>(posting);
    sender.absorb::<Beside>(door, lent);
    let back = sender.another::<Beside>(door);
    sender.absorb::<Beside>(posting, back);
}

impl<S: Shut> Drop for Door<S> {
    // Who receives looks again whether each sender is gone.
    fn drop(self) {
        let Self {
            sender,
            bells,
            shown: _,
            pass: _,
        } = self;
        drop(sender);
        bells.receiver.unpark();
    }
}
