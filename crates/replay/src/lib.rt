//! `replay`: the transcript of lines, in one realm and one thread.
//!
//! What a broker is run with stands in `broker_config`. Contracts say what a transcript is of the lines that were read,
//! which fault is told, and what stands written then.
#![tactic(auto)]

mod fault;
pub mod laws;
mod line;
mod line_replay;
mod print;
mod replay_input;
mod run;
mod speech;

pub use fault::Fault;
pub use run::replay;
