//! What an inbox and a poster of it know together.
ghost use Rattle.std.specs.Prelude.{◌≡◌, [], true};
ghost use mathlib.Core.List.{IsPrefix};
ghost use Rattle.crossbeam_channel.specs.Claims.{view, IsSeatAt};
ghost use Rattle.crossbeam_channel.specs.Ends.{sends_on};
ghost use Rattle.wamp_ids.specs.Numbers.{seat_of};
ghost use Rattle.realm_inbox.specs.Seats.{at_seat};
ghost use Rattle.realm_inbox.specs.InTurn.{Agrees, beside};
ghost use Rattle.realm_inbox.specs.Ends.{place_of as place_in, received_in, reads_any, lends_any};

use crate::ends::{Inbox, Poster, Seat, Sending, Ticket};
use crate::rule::Beside;
use crate::transport::Shut;

impl<S: Shut> Inbox<S> {
    ghost use Rattle.realm_inbox.specs.EndViews.{received, capacity, posted, poster_conn, inbox_of, inbox_of_poster};

    /// Tells what was received of a poster's seat: it begins what was posted there. The two are of one inbox, and neither changes;
    /// nobody waits.
    pub fn compare(&mut self, poster: &mut Poster<S>)
        requires inbox { inbox_of self.old ≡ inbox_of_poster poster.old }
        ensures begins { IsPrefix (at_seat (seat_of (poster_conn poster.new)) (received self.new))
            (posted poster.new) }
        ensures poster { (poster_conn poster.new ≡ poster_conn poster.old)
            × (posted poster.new ≡ posted poster.old)
            × (inbox_of_poster poster.new ≡ inbox_of_poster poster.old) }
        ensures same { (received self.new ≡ received self.old)
            × (inbox_of self.new ≡ inbox_of self.old)
            × (capacity self.new ≡ capacity self.old) }
    {
        poster.seat.compare(&mut self.pass);
    }
}

impl<S: Shut> Seat<S> {
    ghost use Rattle.realm_inbox.specs.EndViews.{posted_at, seat_number, inbox_of_seat};

    // Tells what the reader's pass, which is of its inbox, and its own know together.
    fn compare(&mut self, reading: &mut Ticket<S>)
        requires place { place_in reading.old ≡ inbox_of_seat self.old }
        requires reads { (reading.old.me.1 ≡ []) × (reads_any (view reading.old) ≡ true) }
        ensures begins { IsPrefix (at_seat (seat_number self.new) (received_in (view reading.old)))
            (posted_at self.new) }
        ensures reading { (place_in reading.new ≡ place_in reading.old)
            × (reading.new.me.1 ≡ []) × (view reading.new ≡ view reading.old) }
        ensures same { (seat_number self.new ≡ seat_number self.old)
            × (posted_at self.new ≡ posted_at self.old)
            × (inbox_of_seat self.new ≡ inbox_of_seat self.old) }
    {
        compare_passes(&self.sender, reading, &mut self.pass);
    }
}

// Tells what the reader's pass and a seat's or the door's know together. Both know the same behind it.
pub(crate) fn compare_passes<S: Shut>(
    sender: &Sending<S>,
    reading: &mut Ticket<S>,
    posting: &mut Ticket<S>,
)
    requires reading { IsSeatAt (sends_on sender.now) reading.old
        × (reads_any (view reading.old) ≡ true) }
    requires posting { IsSeatAt (sends_on sender.now) posting.old
        × (lends_any (view posting.old) ≡ true) }
    ensures agree { Agrees (beside (view reading.old) (view posting.old)) }
    ensures reading { IsSeatAt (sends_on sender.now) reading.new
        × (view reading.new ≡ view reading.old) }
    ensures posting { IsSeatAt (sends_on sender.now) posting.new
        × (view posting.new ≡ view posting.old) }
{
    let lent = sender.another::<Beside>(posting);
    sender.absorb::<Beside>(reading, lent);
    sender.learn_as::<Beside>(reading);
    let back = sender.another::<Beside>(reading);
    sender.absorb::<Beside>(posting, back);
}
