//! One thread adds, another takes.
use crate::case::{ends_of, numbers_of};
use crate::ends::{Added, Adder, Ends};
use crate::numbers::Numbers;
use case_text::{Work, start};
use outbox_queue::{Drain, Waited};
use std::alloc::{AllocError, Global};
use std::io;
use std::sync::Wait;
use std::thread::{self, Threads};

/// Adds all the numbers and closes. It wakes the other after each 64th, and where the queue is full.
fn add_all<R: Wait>(rt: &R, mut adder: Adder) {
    let mut unwoken: u64 = 0;
    for _ in rt.forever() {
        match adder.add(rt) {
            Added::Yes(_) => unwoken = unwoken.wrapping_add(1),
            Added::Full(_) => {
                adder.wake();
                unwoken = 0;
                thread::yield_now();
            }
            Added::No => break,
        }
        if unwoken >= 64 {
            adder.wake();
            unwoken = 0;
        }
    }
    adder.close();
}

/// Takes until it is told to stop: how many came, and whether each was the next.
fn take_all<R: Wait>(rt: &R, mut drain: Drain<u64, Numbers>, first: u64) -> (u64, bool) {
    let mut count: u64 = 0;
    let mut are_in_order = true;
    for _ in rt.forever() {
        match drain.wait_next(rt) {
            Waited::Item(number) => {
                are_in_order &= number == first.wrapping_add(count);
                count = count.wrapping_add(1);
            }
            Waited::Stopped => break,
        }
    }
    (count, are_in_order)
}

impl<R: Wait + Copy> Work<R, ()> for Adder {
    /// Adds all that is left and closes.
    fn run(self, rt: R) {
        add_all(&rt, self)
    }
}

/// Passes numbers from one thread to another: the capacity, the first number, and how many.
pub fn pass_all<R: Threads + Wait + Copy + Send + 'static>(
    rt: R,
    alloc: Global,
    text: &str,
) -> io::Result<String> {
    let Some((cap, numbers)) = numbers_of(text, false) else {
        return Ok(String::from_str(alloc, "no numbers\n")?);
    };
    let Some(ends) = ends_of(alloc, cap, numbers)? else {
        return Ok(String::from_str(alloc, "that capacity doesn't fit\n")?);
    };
    let Ends { adder, drain } = ends;
    let first = numbers.first;
    let Ok(adding) = start(rt, adder) else {
        return Err(AllocError)?;
    };
    let (count, are_in_order) = take_all(&rt, drain, first);
    adding.join(&rt);
    Ok(format!(in alloc; "{count} taken, each the next: {are_in_order}\n")?)
}
