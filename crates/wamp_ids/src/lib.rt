//! WAMP's identifiers: session, publication, subscription and request ids, connection numbers, topics, and the patterns
//! of subscriptions.
//!
//! Contracts say which numbers and texts each type holds, that reading one gives exactly those, and which topics a
//! pattern matches.
#![tactic(auto)]

mod ascii;
mod components;
mod conn;
mod fault;
mod id;
pub mod laws;
mod pattern;
mod topic;
mod wide;

pub use components::{dot_in, fits};
pub use conn::{Conn, SEATS, seat, seat_index};
pub use fault::Fault;
pub use id::Id;
pub use pattern::{Pattern, Policy};
pub use topic::Topic;
