//! Who holds which patterns, under which subscription numbers, and which of them match a topic.
//!
//! Contracts compare it with a list of holdings: what is added, found and removed is what a look through the whole list
//! would give, in the same order. No number is given twice. A connection holds at most 256 patterns, and at most 2^53
//! are opened; a refusal changes nothing.
#![tactic(auto)]

mod conns;
mod deep;
mod fault;
mod index;
pub mod laws;
mod names;
mod parts;
mod pieces;
mod receiver;
mod receivers;
mod rows;
mod shapes;
mod shares;
mod table;
mod words;

pub use fault::Fault;
pub use index::Index;
pub use receiver::Receiver;
pub use receivers::Receivers;
