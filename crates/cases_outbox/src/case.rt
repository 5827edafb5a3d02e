//! The words of the table.
ghost use Rattle.std.specs.Prelude.{◌≤◌, ◌<◌};

use crate::ends::{Added, Adder, Ends};
use crate::numbers::Numbers;
use crate::threads::pass_all;
use case_text::line_of;
use outbox_queue::{Drain, Drained, MOST_ITEMS, Next, Waited, cap_fits, pair, settle};
use std::alloc::{AllocError, Global};
use std::io;
use std::sync::Wait;
use std::thread::Threads;

/// The queue of the present case, if one was made; or its drain alone, once the other end was parted with.
#[derive(Drop)]
pub struct Case {
    ends: Option<Ends>,
    alone: Option<Drain<u64, Numbers>>,
}

/// A queue of this capacity for connection 1, over the numbers from `first`.
pub fn ends_of(alloc: Global, cap: usize, numbers: Numbers) -> Result<Option<Ends>, AllocError> {
    if !cap_fits(cap) {
        return Ok(None);
    }
    let (outbox, drain) = pair::<u64, Numbers>(alloc, 1, cap)?;
    let adder = Adder::new(outbox, numbers);
    Ok(Some(Ends { adder, drain }))
}

impl Case {
    /// No queue yet.
    pub fn new() -> Case {
        Case {
            ends: None,
            alone: None,
        }
    }

    /// Takes a line, and gives what it is answered by.
    pub fn take<R: Threads + Wait + Copy + Send + 'static>(
        &mut self,
        rt: R,
        alloc: Global,
        line: &str,
    ) -> io::Result<String> {
        match line.split_once(' ') {
            Some(("#", _)) => {
                self.ends = None;
                self.alone = None;
                line_of(alloc, line)
            }
            Some(("queue", text)) => self.begin(alloc, text, false),
            Some(("lost", text)) => self.begin(alloc, text, true),
            Some(("threads", text)) => pass_all(rt, alloc, text),
            Some(_) => line_of(alloc, "no case has this word"),
            None => self.step(&rt, alloc, line),
        }
    }

    /// Makes a queue: its capacity, the first number, and how many are owed, over a history that cut the connection or didn't.
    fn begin(&mut self, alloc: Global, text: &str, is_cut: bool) -> io::Result<String> {
        let Some((cap, numbers)) = numbers_of(text, is_cut) else {
            return line_of(alloc, "no queue");
        };
        self.ends = ends_of(alloc, cap, numbers)?;
        match &self.ends {
            None => line_of(alloc, "that capacity doesn't fit"),
            Some(_) => Ok(String::new(alloc)),
        }
    }

    /// Does what a word alone asks for.
    fn step<R: Wait>(&mut self, rt: &R, alloc: Global, word: &str) -> io::Result<String> {
        match word {
            "settle" => return self.settle(rt, alloc),
            "part" => return self.part(alloc),
            "whole" => return self.wait_whole(rt, alloc),
            _ => {}
        }
        let Some(ends) = &mut self.ends else {
            return line_of(alloc, "no queue");
        };
        match word {
            "add" => added(alloc, ends.adder.add(rt)),
            "next" => taken(alloc, ends.drain.next(rt)),
            "wait" => waited(alloc, ends.drain.wait_next(rt)),
            "close" => {
                ends.adder.close();
                Ok(String::new(alloc))
            }
            "facts" => facts(alloc, ends),
            _ => line_of(alloc, "no case has this word"),
        }
    }

    /// Hands the adding end over to the drain, if all that is owed was added, or drops it.
    fn part(&mut self, alloc: Global) -> io::Result<String> {
        let Some(ends) = self.ends.take() else {
            return line_of(alloc, "no queue");
        };
        let Ends { adder, drain } = ends;
        self.alone = Some(drain);
        if adder.part() {
            line_of(alloc, "handed over")
        } else {
            line_of(alloc, "dropped")
        }
    }

    /// Waits until the adding end came over.
    fn wait_whole<R: Wait>(&mut self, rt: &R, alloc: Global) -> io::Result<String> {
        match &mut self.alone {
            Some(drain) => drained(alloc, drain.wait_whole(rt)),
            None => line_of(alloc, "no end was parted with"),
        }
    }

    /// Puts the ends together, and prints what is left.
    fn settle<R: Wait>(&mut self, rt: &R, alloc: Global) -> io::Result<String> {
        let Some(ends) = self.ends.take() else {
            return line_of(alloc, "no queue");
        };
        let Ends { adder, drain } = ends;
        let rest = match settle(rt, alloc, adder.into_outbox(), drain) {
            Ok(rest) => rest,
            Err((refused, _, _)) => return Err(refused)?,
        };
        rest_line(alloc, &rest.items)
    }
}

/// A capacity, and so many numbers from the first, of a history that cut the connection or didn't.
pub fn numbers_of(text: &str, is_cut: bool) -> Option<(usize, Numbers)> {
    let (cap, rest) = text.split_once(' ')?;
    let (first, count) = rest.split_once(' ')?;
    let cap = cap.parse::<usize>().ok()?;
    let first = first.parse::<u64>().ok()?;
    let count = count.parse::<u64>().ok()?;
    Some((
        cap,
        Numbers {
            first,
            count,
            is_cut,
        },
    ))
}

fn rest_line(alloc: Global, items: &[u64]) -> io::Result<String> {
    let mut line = String::from_str(alloc, "rest")?;
    for number in items {
        write!(line, " {number}")?;
    }
    line.push('\n')?;
    Ok(line)
}

fn added(alloc: Global, added: Added) -> io::Result<String> {
    match added {
        Added::Yes(number) => Ok(format!(in alloc; "added {number}\n")?),
        Added::Full(number) => Ok(format!(in alloc; "full with {number}\n")?),
        Added::No => line_of(alloc, "nothing to add"),
    }
}

fn taken(alloc: Global, next: Next<u64>) -> io::Result<String> {
    match next {
        Next::Item(number) => Ok(format!(in alloc; "took {number}\n")?),
        Next::Empty => line_of(alloc, "empty"),
    }
}

fn waited(alloc: Global, waited: Waited<u64>) -> io::Result<String> {
    match waited {
        Waited::Item(number) => Ok(format!(in alloc; "took {number}\n")?),
        Waited::Stopped => line_of(alloc, "stopped"),
    }
}

fn drained(alloc: Global, drained: Drained<u64>) -> io::Result<String> {
    match drained {
        Drained::Item(number) => Ok(format!(in alloc; "took {number}\n")?),
        Drained::Stopped => line_of(alloc, "stopped"),
        Drained::Full => line_of(alloc, "was full"),
        Drained::Lost => line_of(alloc, "lost"),
        Drained::Dropped => line_of(alloc, "dropped"),
    }
}

fn facts(alloc: Global, ends: &Ends) -> io::Result<String> {
    let (is_closed, conn, capacity) = ends.adder.facts();
    let theirs = ends.drain.conn();
    Ok(format!(in alloc;
        "closed {is_closed}, connections {conn} and {theirs}, capacity {capacity}, at most {MOST_ITEMS}\n"
    )?)
}
