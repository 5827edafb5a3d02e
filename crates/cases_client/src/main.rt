//! Cases of `client_messages` and `client_session`, as lines of standard input; what each is answered by is printed.
//!
//! - `# TEXT` begins a case, and is printed as it stands.
//! - `say JSON`: the message that says what a broker reads in this one.
//! - `deep N`: how deep the message nests of a SUBSCRIBE with an option of N levels.
//! - `subscribe WORDS`, `publish WORDS`: the options that ask for these wishes, and how deep they nest. The words of
//!   a SUBSCRIBE are `prefix`, `wildcard` and `get_retained`; those of a PUBLISH `acknowledge`, `disclose_me`,
//!   `include_me`, `retain`, `ids`, `authids` and `authroles`, the last three with their list behind `=`, parted by
//!   commas, and behind `not_` where those are excluded.
//! - `hear JSON`: what a broker's message says.
//! - `faults`, `link_faults`: each fault as it is printed.
//! - `link`: links to a broker, says all and hears all, as the lines before it say; tells what is written, what is
//!   heard, and what came last. `msgpack` sets the serialization, which else is JSON;
//!   - `octets TEXT`: more octets that the broker sends; `\7f` is an octet; `repeat N LETTER`: so many of this one
//!     octet; `first N`: only so many of the octets;
//!   - `message TEXT`, `ping TEXT`, `pong TEXT`: the broker sends a frame of these octets;
//!   - `says JSON`: the client says this;
//!   - `slowly`, `read N fails`, `write N fails`, as devices do.
//! - `reads`, `writes`: links so for each read, or each write and flush, that fails, the first one first, until none
//!   does, and says how many octets were written, how many messages heard, and what came last: a line for those that
//!   come to the same.
#![tactic(auto)]

mod case;
mod hearing;
mod json;
mod messages;
mod saying;
mod talking;
mod wishing;

use case::Case;
use case_text::tell_all;
use std::io;

fn main(rt: HostRuntime) -> io::Result<()> {
    let alloc = rt.alloc();
    tell_all(rt, alloc, &mut Case::new(alloc))
}
