#![tactic(auto)]

//! The arguments of a publication (WAMP, "Publishing and Events": Arguments and ArgumentsKw), from the octets in which
//! they came to the octets in which they go: no tree stands between, where both can be written in MessagePack.
//!
//! Contracts see the data of the arguments.
mod args;
mod buffer;
mod carried;
mod fault;
mod held;
mod parts;
mod reading;
mod writing;

pub use args::Args;
pub use carried::CarriedArgs;
pub use fault::Fault;
pub use held::Decoded;
