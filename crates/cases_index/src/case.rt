//! A case: an index and a store, as the lines so far have left them.
use crate::index::{drop_all, hold, matching, pattern, receivers, release};
use crate::store::{count, keep, kept, room};
use case_text::{Table, crossing, line_of, may_be_shared};
use retained::Store;
use std::alloc::Global;
use std::io;
use subscription_index::Index;

/// What is held and kept, as the lines of a case have said.
#[derive(Drop)]
pub struct Case {
    index: Index,
    store: Store,
}

impl Case {
    pub fn new(alloc: Global) -> Case {
        Case {
            index: Index::new(alloc),
            store: Store::new(alloc),
        }
    }
}

impl Table for Case {
    fn take(&mut self, alloc: Global, line: &str) -> io::Result<String> {
        match line.split_once(' ') {
            Some(("#", _)) => {
                *self = Case::new(alloc);
                line_of(alloc, line)
            }
            Some(("hold", text)) => hold(alloc, &mut self.index, text),
            Some(("release", text)) => release(alloc, &mut self.index, text),
            Some(("drop", text)) => drop_all(alloc, &mut self.index, text),
            Some(("matching", text)) => matching(alloc, &self.index, text),
            Some(("receivers", text)) => receivers(alloc, &self.index, text),
            Some(("pattern", text)) => pattern(alloc, &self.index, text),
            Some(("keep", text)) => keep(alloc, &mut self.store, text),
            Some(("room", text)) => room(alloc, &self.store, text),
            Some(("kept", text)) => kept(alloc, &self.store, text),
            Some(("count", text)) => count(alloc, &self.store, text),
            None if line == "held" => held(alloc, &self.index, &self.store),
            None if line == "threads" => threads(alloc),
            None if line == "faults" => faults(alloc),
            _ => line_of(alloc, "no case has this word"),
        }
    }
}

/// How many patterns are held, how many topics have a retained publication, and how many octets these are.
fn held(alloc: Global, index: &Index, store: &Store) -> io::Result<String> {
    let patterns = index.len();
    let topics = store.len();
    let octets = store.octets();
    Ok(format!(in alloc; "{patterns} patterns, {topics} topics of {octets} octets\n")?)
}

/// Each fault as it is printed.
fn faults(alloc: Global) -> io::Result<String> {
    let mut text = String::new(alloc);
    for fault in [
        subscription_index::Fault::NoMemory,
        subscription_index::Fault::TooManySubscriptions,
    ] {
        writeln!(&mut text, "{fault}")?;
    }
    for fault in [retained::Fault::NoMemory, retained::Fault::RetainedFull] {
        writeln!(&mut text, "{fault}")?;
    }
    Ok(text)
}

/// That an index and a store may be shared between threads.
fn threads(alloc: Global) -> io::Result<String> {
    may_be_shared::<Index>();
    may_be_shared::<Store>();
    crossing(alloc)
}
