//! What holds of posts that were handled: how the history keeps their order. And the laws of the inbox.
ghost use Rattle.realm_actor.specs.PostedOrder.{HandledKeepsOrder, HistoryKeepsOrder, RunKeepsOrder};

use realm_inbox::Shut;
pub use realm_inbox::laws::{
    received_begins_posted, stops_received_were_posted, waiting_posts_are_in_order,
};
use std::marker::PhantomData;

/// Where a realm's history is what posts made of it from the beginning on, the entries of each connection, Cut and Closed left
/// aside, are some of its acts among these posts, in their order, each once; and where the first is its Join and no later one is
/// a Join, they are a beginning of them.
pub fn handled_keeps_order<S: Shut>(_transport: PhantomData<S>)
    ensures { HandledKeepsOrder S }
{}

/// The same of what was posted at a connection's seat, at every moment of the inbox, where what was handled is, seat by seat,
/// what was received.
pub fn history_keeps_order<S: Shut>(_transport: PhantomData<S>)
    ensures { HistoryKeepsOrder S }
{}

/// Of a run ([`Actor::run`](crate::Actor::run)): the history that comes back keeps the order of all posts that made it; and where
/// the entries of a connection are a beginning of its acts, they are all of them if its session is live at the end, or was closed
/// in this run.
pub fn run_keeps_order<S: Shut>(_transport: PhantomData<S>)
    ensures { RunKeepsOrder S }
{}
