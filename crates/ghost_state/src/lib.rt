//! State that only contracts see: a count, and a list that grows at its end.
//!
//! A value of it takes no bytes, so nothing that runs can depend on it. Who owns one keeps in it what happened: how
//! often a device was called, what was posted so far.
//!
//! Contracts say what each call adds.
#![tactic(auto)]

mod ghost_count;
mod ghost_list;

pub use ghost_count::GhostCount;
pub use ghost_list::GhostList;
