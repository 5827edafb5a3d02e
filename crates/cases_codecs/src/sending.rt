//! Writers that hold back, have no room, or fail to flush.
use crate::devices::ALL;
use case_text::{crossing, line_of, may_be_sent, spelled};
use case_devices::FailsAt;
use rawsocket::devices::{MemorySink, MemorySource, ReadSource, Sink, Turns, WriteSink, write_all};
use rawsocket::{Deframer, Fault};
use std::alloc::Global;
use std::io;
use std::io::BufWriter;

fn write_whole<S: Sink>(sink: &mut S) -> Result<(), Fault> {
    write_all(sink, ALL, &mut Turns::new())
}

/// What reaches a writer behind a buffer before the flush, and after it.
pub fn held_back(alloc: Global) -> io::Result<String> {
    let room = Vec::with_capacity(alloc, ALL.len())?;
    let mut sink = WriteSink::new(BufWriter::new(alloc, room)?);
    let written = write_whole(&mut sink).is_ok();
    let before = spelled(alloc, sink.writer().get_ref())?;
    let flushed = sink.flush().is_ok();
    let after = spelled(alloc, sink.writer().get_ref())?;
    Ok(format!(in alloc; "{written}: {before}; {flushed}: {after}\n")?)
}

/// How a writer that has no room for all octets ends.
pub fn no_room(alloc: Global) -> io::Result<String> {
    let mut room = [0u8; 3];
    let mut sink = WriteSink::new(room.as_mut_slice());
    match write_whole(&mut sink) {
        Ok(()) => line_of(alloc, "written"),
        Err(fault) => Ok(format!(in alloc; "{fault}\n")?),
    }
}

/// A flush that fails, and the next.
pub fn failing_flush(alloc: Global) -> io::Result<String> {
    let mut sink = FailsAt::new(MemorySink::new(alloc), 0);
    let first = sink.flush();
    let second = sink.flush();
    flushes(alloc, first, second)
}

fn flushes(
    alloc: Global,
    first: Result<(), Fault>,
    second: Result<(), Fault>,
) -> io::Result<String> {
    match (first, second) {
        (Err(fault), Ok(())) => Ok(format!(in alloc; "{fault}; flushed\n")?),
        _ => line_of(alloc, "no flush failed first"),
    }
}

/// That streams and devices may go to another thread.
pub fn threads(alloc: Global) -> io::Result<String> {
    may_be_sent::<Deframer>();
    may_be_sent::<MemorySource>();
    may_be_sent::<WriteSink<Vec<u8>>>();
    may_be_sent::<ReadSource<&[u8]>>();
    crossing(alloc)
}
