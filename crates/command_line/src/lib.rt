//! The words of the command line, and what is told of a fault.
//!
//! `clap` splits the words. Contracts say what a command line asks for, which fault is told and how.
#![tactic(auto)]

mod client_grammar;
mod clients;
mod command;
mod diagnostics;
mod fault;
mod grammar;
mod grants;
mod printable;
mod refusal;
mod serving;
mod version;

pub use command::{Command, explain, help, read_command};
pub use diagnostics::{report, report_failure, warn_of_exposure};
pub use fault::Fault;
pub use grants::read_grants;
pub use printable::shown_line;
pub use serving::{Purpose, Serving, served_lines};
pub use version::VERSION;
