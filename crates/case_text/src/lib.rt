//! What the drivers of case tables share: how octets stand in a line, the lines of answers, threads, and the way from a
//! line to its answer.
//!
//! In a table an octet of printable ASCII stands for itself, `\\` for a backslash, and `\7f` for any
//! octet, by two lowercase hexadecimal digits.
#![tactic(auto)]

mod bounds;
mod octets;
mod table;
mod words;
mod work;

pub use bounds::{crossing, may_be_sent, may_be_shared};
pub use octets::{hexadecimal, octets_of, spell, spelled, text_of};
pub use table::{Table, tell_all};
pub use words::{is_refused, line_of, number_of, part, part_of};
pub use work::{Work, start};
