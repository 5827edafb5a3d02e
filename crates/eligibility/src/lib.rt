//! Who is to receive a publication: subscriber black- and whitelisting, and publisher exclusion.
//!
//! Contracts say whom the options of a PUBLISH admit, by a definition that names sessions, authids and authroles, and
//! which options are refused.
#![tactic(auto)]

mod fault;
mod id_set;
pub mod laws;
mod lists;
mod numbers;
mod options;
mod places;
mod texts;
mod trees;
mod values;
mod who;

pub use fault::Fault;
pub use lists::Lists;
pub use values::ListOptions;
pub use who::Who;
