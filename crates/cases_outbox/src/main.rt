//! Cases of `outbox_queue`, as lines of standard input; what each gives is printed.
//!
//! - `# TEXT` begins a case, and is printed as it stands.
//! - `queue CAP FIRST COUNT`: a queue of this capacity, over a history that owes so many numbers from the first.
//! - `lost CAP FIRST COUNT`: the same, but the history cut the connection, which is handed over as lost.
//! - `add` adds the next number, `next` takes one, `wait` waits for one, `close` closes, `facts` tells what the ends
//!   know, and `settle` puts the ends together and prints what is left.
//! - `threads CAP FIRST COUNT`: one thread adds all the numbers and closes, another takes them and waits.
#![tactic(auto)]

mod case;
mod ends;
mod numbers;
mod threads;

use case::Case;
use std::alloc::Global;
use std::io::{self, Input, Print};
use std::sync::Wait;
use std::thread::Threads;

fn main(rt: HostRuntime) -> io::Result<()> {
    let alloc = rt.alloc();
    tell_all(rt, alloc, &mut Case::new())
}

// Prints what each line of standard input is answered by.
fn tell_all<R: Input + Print + Threads + Wait + Copy + Send + 'static>(
    rt: R,
    alloc: Global,
    case: &mut Case,
) -> io::Result<()> {
    for line in rt.lines(alloc) {
        let told = case.take(rt, alloc, line?.as_str())?;
        print!(rt; "{told}")?;
    }
    Ok(())
}
