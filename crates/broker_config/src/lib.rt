//! What a broker is run with, and why it ends: its realms, who may be whom, how much may wait, where ids come from.
//!
//! What grants mean, `realm` says. Contracts say here that grants are copied whole, in their order.
#![tactic(auto)]

mod config;
mod fault;
mod grants;

pub use config::{Config, Ids};
pub use fault::Fault;
pub use grants::copy_grants;
