//! The threads of a running broker: a realm's actor, a connection's reader and its writer, and the log's.
//! `threaded_server` starts them, one by one, and says what they are to each other.
//!
//! A [`Reader`] opens the session of a stream, starts the session's [`Writer`], posts what the stream gives, and waits
//! for the writer. An [`ActorThread`] runs a realm's actor until it is stopped. What a thread is handed and what it
//! gives back are values, and each has a clause ([`work::Task`]) that says what it makes of one the other: so who joins
//! a thread knows what it did.
//!
//! What the posts give each session is `realm_actor`'s; what a reader posts and a writer writes, `connection`'s; the
//! opening of a session, `session`'s. Contracts say here what was read, posted and written for a stream whose reader
//! ended, what a writer took, what an actor ran on and up to which post, and in which order reasons are told. Nothing
//! is promised of time, and which line is told when is shown by runs alone.
#![tactic(auto)]

mod actor_thread;
mod board;
mod closed;
mod closing;
mod course;
mod fate;
pub mod handover;
mod herald;
mod id_words;
mod log;
mod plan;
mod reader_thread;
mod seat_table;
mod stats;
mod stream_fate;
mod talk;
pub mod told;
pub mod work;
mod writer_thread;

pub use actor_thread::{Acted, ActorThread};
pub use board::Board;
pub use closed::Closed;
pub use course::Course;
pub use fate::{Fate, Marked};
pub use id_words::IdWords;
pub use log::{Log, LogEnd};
pub use plan::Plan;
pub use reader_thread::{Ended, Reader};
pub use seat_table::SeatTable;
pub use stats::Telling;
pub use stream_fate::{SessionEnds, StreamFate};
pub use writer_thread::{SeenHistory, Writer, Written};
