//! Cases of `replay`, of the command line and of grants, as lines of standard input; what each gives is printed.
//!
//! - `# TEXT` begins a case, and is printed as it stands.
//! - `grants TEXT`: the grants, as the command line has them.
//! - `slowly`: one octet at a time.
//! - `read N fails`, `write N fails`: the call with this number, from 0; a flush is a write.
//! - `> LINE` is a line of the input, `>> LINE` a line that has no end.
//! - `run` replays the input, and prints the output and the fault.
//! - `reads`, `writes`: replays it so for each read, or each write and flush, that fails, the first one first, until
//!   none does, and says how many octets were written and the fault: a line for those that come to the same.
//! - `command WORDS`: what is read of these words of a command line.
//! - `explain WORDS`: what is written of these words, which are refused, and the exit status.
//! - `served WORDS`: what a broker would serve by these words, as `serve --check` prints it.
//! - `warned ADDRESS`: what is told where a broker listens at this address.
//! - `reason TEXT`: what is written of a fault with this reason, and the exit status.
//! - `reports`: what is reported of each fault, and the exit status.
#![tactic(auto)]

mod case;
mod clients;
mod commands;
mod outcome;
mod script;

use case::Case;
use case_text::tell_all;
use std::io;

fn main(rt: HostRuntime) -> io::Result<()> {
    let alloc = rt.alloc();
    tell_all(rt, alloc, &mut Case::new(alloc))
}
