//! Cases of `session` and of `arguments`, as lines of standard input; what each is answered by is printed.
//!
//! - `# TEXT` begins a case, and is printed as it stands.
//! - `say JSON`: what a client's message says, of options what they ask for, as `asking.rt` puts it; `text OCTETS` and
//!   `payload OCTETS`: the same of one in JSON that may be anything, and of one in MessagePack; or `differs` where the
//!   tree that the text or the octets decode to says something else.
//! - `event MARKS JSON`: the EVENT that a PUBLISH in JSON gives subscription 1; the
//!   marks are letters of `dtr`: disclosed, with its topic, retained.
//! - `carried JSON`: whether the arguments of a PUBLISH are carried, and whether they are taken so.
//! - `args OCTETS`: the elements of a list in MessagePack as Arguments, or as Arguments and ArgumentsKw: how many they
//!   are, whether they are carried, and each in JSON; then what is kept of them for the end of a message, in
//!   MessagePack and in JSON (`-` where nothing is), as they were read, of a copy, and once both were asked for; behind
//!   the last two what is put behind the octets `ab`, or `uncarried`.
//! - `trees JSON`: the same of the arguments of a PUBLISH in JSON.
//! - `arguments`: none, and a list alone.
//! - `threads`: that what is said and published may be shared between threads.
//! - `replies`, `reasons`, `faults`: each message of that kind.
//! - `frames`, `frame`: items as they are written, described in `writing.rt`.
//! - `open`: opens a session, as the lines before it say:
//!   - `realms NAMES`, by spaces;
//!   - `within N`: payloads of the client may have so many octets at most, and not 2^20; or `no bound` where there is
//!     none of so many;
//!   - `octets TEXT`: more octets of the stream; `\7f` is an octet;
//!   - `repeat N LETTER`: so many of this one octet;
//!   - `first N`: only so many of the octets;
//!   - `slowly`, `read N fails`, `write N fails`, as devices do;
//!   - `then TEXT`: octets for the frames of an opened session.
//! - `reads`, `writes`: opens a session so for each read, or each write and flush, that fails, the first one first,
//!   until none does, and says how many octets were written and what came of it: a line for those that come to the
//!   same.
#![tactic(auto)]

mod asking;
mod case;
mod holding;
mod opening;
mod publishing;
mod saying;
mod telling;
mod writing;

use case::Case;
use case_text::tell_all;
use std::io;

fn main(rt: HostRuntime) -> io::Result<()> {
    let alloc = rt.alloc();
    tell_all(rt, alloc, &mut Case::new(alloc))
}
