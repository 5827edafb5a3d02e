//! Cases of the lines that a broker tells its operator (`log_lines`), as lines of standard input; what each is answered
//! by is printed. In a text `\7f` is an octet, and `-` alone is the empty text.
//!
//! - `# TEXT` begins a case, and is printed as it stands.
//! - `listening PORT HOST`, `accepted CONN PEER`, `refused PEER`, `store REALM`, `failed REASON`, `lost N`: that line.
//! - `lacking PEER`: the line of a connection that is refused for want of memory.
//! - `opened CONN SESSION SERIALIZATION LIMIT REALM AUTHID AUTHROLE`: that line.
//! - `full N`, `long OCTETS LIMIT`: a connection 7 that is closed for N items that wait, or for an item of so many
//!   octets.
//! - `reasons`: a connection 7 that is closed, for each other reason.
//! - `violations`, `openings`: the same for each fault of a violation, or of an opening.
#![tactic(auto)]

mod case;
mod closing;
mod telling;

use case::Case;
use case_text::tell_all;
use std::io;

fn main(rt: HostRuntime) -> io::Result<()> {
    tell_all(rt, rt.alloc(), &mut Case {})
}
