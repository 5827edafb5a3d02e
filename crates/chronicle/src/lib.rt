//! A history that one owner alone makes longer, and tokens of what it was, which may go to other threads and take no
//! bytes.
//!
//! A [`Chronicle`] is made with nothing in it. [`Chronicle::record`] makes its history longer, and gives a
//! [`HistoryToken`] of what it is then. [`Chronicle::check`] takes a token in, wherever that was meanwhile, and shows
//! that the token's history begins the chronicle's. So who has the chronicle in the end can bring together what
//! different threads saw of one history.
//!
//! A token is a pass of a ruled queue of `crossbeam_queue` to which nothing is ever pushed. So none can be made up:
//! each was cut off the owner's by `record`, and the rule of the queue keeps that what each is of begins what the owner
//! has. To cut a token costs one atomic load, and to check one a few; neither takes memory.
//!
//! What a history is, and which begins which, its caller says ([`History`]).
#![tactic(auto)]

mod chronicle;
mod history;
mod name;
mod rule;

pub use chronicle::{Chronicle, HistoryToken};
pub use history::History;
pub use name::Name;
pub use rule::ChronicleView;
