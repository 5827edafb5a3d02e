//! A program that answers the lines of its standard input.
use crate::words::is_refused;
use std::alloc::Global;
use std::io::{self, Input, Print};

/// What answers the lines of a table.
pub trait Table {
    /// Takes a line, and gives what it is answered by.
    fn take(&mut self, alloc: Global, line: &str) -> io::Result<String>;
}

/// Prints what each line of standard input is answered by.
pub fn tell_all<R: Input + Print + Copy, T: Table>(
    rt: R,
    alloc: Global,
    table: &mut T,
) -> io::Result<()> {
    for line in rt.lines(alloc) {
        let told = answer(alloc, table, line?.as_str())?;
        print!(rt; "{told}")?;
    }
    Ok(())
}

// What a line is answered by; one that memory was refused for is taken once more.
fn answer<T: Table>(alloc: Global, table: &mut T, line: &str) -> io::Result<String> {
    let told = table.take(alloc, line)?;
    if is_refused(told.as_str()) {
        return table.take(alloc, line);
    }
    Ok(told)
}
