//! Cases of `client_commands`, as lines of standard input; what each is answered by is printed.
//!
//! - `# TEXT` begins a case, and is printed as it stands.
//! - `value TEXT`: what a word is as a value, in JSON; `uncarried` where JSON has no spelling for it.
//! - `faults`: each fault as it is printed.
//! - What a command is told: `realm TEXT`, `authid TEXT`, `msgpack`; of `subscribe` `match POLICY`, `get_retained`,
//!   `count N`, `plain` and `topic TEXT` for each topic; of `publish` `acknowledge`, `retain`, `eligible ROLE` for each
//!   role, `kwargs JSON`, `topic TEXT`, `word TEXT` for each word, or `lines` or `file`, and `input TEXT` for the
//!   octets of the standard input or of the file.
//! - What the broker sends: `octets TEXT`, where `\7f` is an octet; `message TEXT`, `ping TEXT`, `pong TEXT`: a frame
//!   of these octets; `first N`: only so many of the octets. Behind `next` it goes over the next connection;
//!   `unreachable`: the next one can't be made.
//! - `timed`: what the command says of its time is told.
//! - How devices behave: `slowly`, one octet at a time; `read N fails`, `write N fails` for the broker's stream,
//!   `input N fails`, `output N fails`, `notes N fails` for the standard streams. Reads, writes and flushes are counted
//!   from 0.
//! - `repeat N LETTER`: the input has so many of this octet more.
//! - `subscribe`, `publish`, `resubscribe`: runs the command, the last one over one connection after another; tells
//!   what was written to the broker, what was noted on standard error, what was printed, and what came last.
//! - `sweep COMMAND DEVICE`, as in `sweep subscribe read`: runs it so for each call that fails, the first one first,
//!   until none does, and says how many octets were written, noted and printed, and what came last: a line for those
//!   that come to the same.
#![tactic(auto)]

mod case;
mod connections;
mod faults;
mod timings;
mod told;
mod values;

use case::Case;
use case_text::tell_all;
use std::io;

fn main(rt: HostRuntime) -> io::Result<()> {
    let alloc = rt.alloc();
    tell_all(rt, alloc, &mut Case::new(alloc))
}
