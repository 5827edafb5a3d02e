//! Laws of what a broker served: what follows from the promises of `threaded_server` alone, of whatever broker keeps
//! them.
//!
//! [`sessions::sessions_go_whole`] tells a client's whole session, from its octets to its octets.
#![tactic(auto)]

pub mod sessions;
