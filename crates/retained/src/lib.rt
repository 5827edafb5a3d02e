//! Event retention: of each of at most 1,000 topics the last publication that was to be retained (WAMP, "Event
//! Retention").
//!
//! Contracts compare the store with a list of publications: of each topic it has the last that was to be retained, and
//! gives those that a pattern matches in the order of their topics.
#![tactic(auto)]

mod fault;
mod kept;
pub mod laws;
mod store;

pub use fault::Fault;
pub use store::Store;
