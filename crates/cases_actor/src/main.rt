//! Cases of `realm_actor`'s actor, as lines of standard input; what each gives is printed.
//!
//! - `# TEXT` begins a case, and is printed as it stands.
//! - `grant AUTHID ROLE` adds a grant. `actor` makes an actor of a realm `r.one` with these grants, at an inbox. Its
//!   words are counted from 0.
//! - `join CONN CAP [AUTHID]` posts a Join that brings an outbox in which so many items may wait; `said CONN JSON`,
//!   `ping CONN OCTETS`, `spoilt CONN` and `gone CONN` post another act, `stop` a stop. Each is posted at the
//!   connection's seat, by the poster that it has there, or by a new one; the actor handles it at once. What is told:
//!   what became of it, whom it cut, and whose transports were shut since the last post.
//! - `persist`: the case goes on after a post for which the actor had no memory, and tells of it as of any other.
//! - `leave CONN`: the connection's poster gives its seat back.
//! - `take CONN` takes the next item of the outbox that the connection's last applied Join brought.
//! - `live CONN`, `holds CONN`: whether its session is live, whether its outbox is held; `sweep` forgets the sessions
//!   that aren't live.
//! - `line CONN TEXT`: a line of a replay as a post. All that waits is taken then, and told as a replay prints it.
//! - `threads COUNT`: four connections publish so many times each, in a thread each, and a thread for each takes what
//!   it is given, while the actor runs. Told is how many items are others than a realm gives for the same entries in
//!   the actor's order.
//!
//! Of the end of a session's outbox, the actor's `settle`:
//!
//! - `pair` makes an actor of a realm `r.one`, and the connections 1 and 2, which alone post; each post is handled
//!   before the next one is made. So it is known which post came through, and which outbox a drain is the other end
//!   of. `join`, `said`, `ping`, `spoilt`, `gone`, `stop`, `take` and `holds` are as above.
//! - `settle CONN` puts the outbox of the connection together with its drain, and tells the items that are left.
#![tactic(auto)]

mod acts;
mod case;
mod desk;
mod drains;
mod expecting;
mod publishing;
mod replaying;
mod room;
mod seating;
mod settling;
mod threads;

use case::Case;
use std::alloc::Global;
use std::io::{self, Input, Print};
use std::sync::Wait;
use std::thread::Threads;

fn main(rt: HostRuntime) -> io::Result<()> {
    let alloc = rt.alloc();
    tell_all(rt, alloc, &mut Case::new(alloc))
}

// Prints what each line of standard input is answered by.
fn tell_all<R: Input + Print + Threads + Wait + Copy + Send + 'static>(
    rt: R,
    alloc: Global,
    case: &mut Case,
) -> io::Result<()> {
    for line in rt.lines(alloc) {
        let told = case.take(rt, alloc, line?.as_str())?;
        print!(rt; "{told}")?;
    }
    Ok(())
}
