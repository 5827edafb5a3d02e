//! Cases of `realm_inbox`'s inbox, as lines of standard input; what each gives is printed.
//!
//! - `# TEXT` begins a case, and is printed as it stands.
//! - `inbox CAP`: an inbox in which so many posts may wait, with its door and its seats; `seats` tells which of them
//!   are free.
//! - `poster CONN` makes the poster of a connection out of the free seat of its number, and `leave CONN` frees that
//!   seat again.
//! - `join CONN AUTHID WIRE`, `ping CONN TEXT`, `goodbye CONN`, `spoilt CONN`, `gone CONN` post an act; AUTHID is `-`
//!   where none is asked for, and WIRE is the number of a transport. `stop` has the door post a stop.
//! - `receive` waits for a post, `try` looks for one.
//! - `close` drops the inbox, `desert` the door and each free seat.
//! - `threads CAP CONN CONN COUNT`: two threads post so many PINGs each, numbered from 0, and a third receives them
//!   all.
//! - `forsake MOST CAP CONN CONN COUNT`: the same, where the third receives at most so many, and goes: the line comes
//!   once both threads have ended.
//! - `linger TIMES CAP CONN CONN COUNT`: so many times `threads`, where the third receives all posts but one, waits
//!   until both threads have ended, and receives that one. `turns TIMES CAP CONN CONN COUNT`: the same, where it looks
//!   for a post, waits for the next one, and so on in turn.
//! - `heavy CONN OCTETS TEXT`: `ping CONN TEXT`, as if it was read from so many octets. `laden CONN COUNT OCTETS KEPT`:
//!   a thread posts so many PINGs, numbered from 0, each of them as if it was read from so many octets. So many are
//!   received and kept, and one more is looked for; then those are handled, and all others.
//!   `strand CONN COUNT OCTETS KEPT`: the same, but that the inbox goes in place of that.
//! - `paced CAP CONN COUNT`: a thread posts so many PINGs, each once the one before was received, and then a stop and
//!   a Join in the same way.
//! - `crossing`: what may go to other threads.
#![tactic(auto)]

mod acts;
mod case;
mod laden;
mod paced;
mod room;
mod tally;
mod threads;
mod wire;

use case::Case;
use std::alloc::Global;
use std::io::{self, Input, Print};
use std::sync::Wait;
use std::thread::Threads;

fn main(rt: HostRuntime) -> io::Result<()> {
    let alloc = rt.alloc();
    tell_all(rt, alloc, &mut Case::new())
}

// Prints what each line of standard input is answered by.
fn tell_all<R: Input + Print + Threads + Wait + Copy + Send + 'static>(
    rt: R,
    alloc: Global,
    case: &mut Case,
) -> io::Result<()> {
    for line in rt.lines(alloc) {
        let told = case.take(rt, alloc, line?.as_str())?;
        print!(rt; "{told}")?;
    }
    Ok(())
}
