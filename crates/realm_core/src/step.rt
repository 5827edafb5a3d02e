//! The steps of a world, and what comes of one.
use realm::Entry;
use wamp_ids::Conn;
use wamp_messages::Item;

/// One step of a [`World`](crate::World).
#[derive(Drop)]
pub enum Step {
    /// The entry goes to the back of the inbox.
    Post(Entry),
    /// The front entry of the inbox enters the history, and its items wait to be pushed.
    Accept,
    /// The front entry of the inbox is lost, and its session is cut, if live: a Cut with this word
    /// enters, and its items wait to be pushed.
    Lose(Option<u64>),
    /// The first item that waits to be pushed goes to the back of its session's queue.
    Push,
    /// The front of the session's queue is taken.
    Take(Conn),
    /// The least of the live sessions that were found full is cut: a Cut with this word enters, and
    /// its items wait to be pushed.
    Leave(Option<u64>),
}

/// What a step did.
#[derive(Drop)]
pub enum Stepped {
    /// The entry stands in the inbox.
    Posted,
    /// The front entry entered the history.
    Accepted,
    /// The front entry may not come, and left the inbox without entering the history.
    Dropped,
    /// The front entry left the inbox without entering the history, and its session was cut, if live.
    Lost,
    /// The item was added.
    Pushed,
    /// The item was not added: its session's queue holds its capacity, or the session was found full before.
    FoundFull,
    /// This item was taken.
    Took(Item),
    /// A session was cut.
    Left,
    /// Nothing: the step has no work.
    Idle,
}
