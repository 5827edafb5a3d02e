//! What holds at every moment of an inbox: of each state that its rule allows.
ghost use Rattle.realm_inbox.specs.Laws.{ReceivedBeginsPosted, StopsReceivedWerePosted, WaitingPostsAreInOrder, WaitingStopsComeBehind};

use crate::transport::Shut;
use std::marker::PhantomData;

/// What was received of a seat, and then what waits of it, is what was posted there.
pub fn received_begins_posted<S: Shut>(_transport: PhantomData<S>)
    ensures { ReceivedBeginsPosted S }
{}

/// As many stops were received, or wait, as the door has posted.
pub fn stops_received_were_posted<S: Shut>(_transport: PhantomData<S>)
    ensures { StopsReceivedWerePosted S }
{}

/// Each post that waits tells what had been posted at its seat before it: what was received of the seat, and then what waits of
/// it in front of the post.
pub fn waiting_posts_are_in_order<S: Shut>(_transport: PhantomData<S>)
    ensures { WaitingPostsAreInOrder S }
{}

/// Each stop that waits comes behind all that its door was shown: that was received, or waits in front of the stop.
pub fn waiting_stops_come_behind<S: Shut>(_transport: PhantomData<S>)
    ensures { WaitingStopsComeBehind S }
{}
