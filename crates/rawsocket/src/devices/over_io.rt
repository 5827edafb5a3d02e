//! Devices over any reader and writer of the library: a TCP stream, the standard streams, memory.
ghost use Rattle.std.specs.Prelude.{◌≡◌};
ghost use Rattle.rawsocket.specs.Devices.{unread, unwritten};

use crate::devices::device::{Sink, Source, tells_end};
use crate::devices::ghost_octets::add_all;
use crate::fault::Fault;
use ghost_state::{GhostCount, GhostList};
use std::io::{Read, Write};
use std::snapshot::Snapshot;

/// Reads from a reader. What it gave is what the reader put into the buffers.
#[derive(Drop)]
pub struct ReadSource<R: Read + Drop> {
    reader: R,
    name: Snapshot<GhostCount>,
    is_ended: bool,
    given: GhostList<u8>,
    calls: GhostCount,
    failures: GhostCount,
}

impl<R: Read + Drop> ReadSource<R> {
    /// Nothing is read so far. Its name is 0, which serves where nobody has to tell it from others.
    pub fn new(reader: R) -> ReadSource<R>
        ensures { ⟦<ReadSource<R> as Source>⟧.seen result ≡ unread 0 (R.remaining reader) }
    {
        ReadSource::named(reader, Snapshot::of(&GhostCount::new()))
    }

    /// Nothing is read so far from the stream of this name. The name takes no bytes.
    pub fn named(reader: R, name: Snapshot<GhostCount>) -> ReadSource<R>
        ensures { ⟦<ReadSource<R> as Source>⟧.seen result
            ≡ unread name.value (R.remaining reader) }
    {
        ReadSource {
            reader,
            name,
            is_ended: false,
            given: GhostList::new(),
            calls: GhostCount::new(),
            failures: GhostCount::new(),
        }
    }
}

impl<R: Read + Drop> Source for ReadSource<R> {
    ghost use Rattle.ghost_state.specs.GhostList.{items_of};

    ghost seen = { λ s. record {
      name = s.name.value;
      given = items_of s.given;
      left = R.remaining s.reader;
      is_ended = s.is_ended;
      calls = s.calls;
      failures = s.failures;
    } };

    fn read_some(&mut self, buffer: &mut [u8]) -> Result<usize, Fault> {
        self.calls.tick();
        match self.reader.read(buffer) {
            Ok(count) => {
                add_all(&mut self.given, &buffer[..count]);
                self.is_ended |= tells_end(count, buffer);
                Ok(count)
            }
            Err(_) => {
                self.failures.tick();
                Err(Fault::ReadFault)
            }
        }
    }
}

/// Writes to a writer. What it took is what the writer counted of the pieces.
#[derive(Drop)]
pub struct WriteSink<W: Write + Drop> {
    writer: W,
    name: Snapshot<GhostCount>,
    taken: GhostList<u8>,
    calls: GhostCount,
    failures: GhostCount,
}

impl<W: Write + Drop> WriteSink<W> {
    /// Nothing is written so far. Its name is 0, which serves where nobody has to tell it from others.
    pub fn new(writer: W) -> WriteSink<W>
        ensures { ⟦<WriteSink<W> as Sink>⟧.seen result ≡ unwritten 0 (W.contents writer) }
    {
        WriteSink::named(writer, Snapshot::of(&GhostCount::new()))
    }

    /// Nothing is written so far to the stream of this name. The name takes no bytes.
    pub fn named(writer: W, name: Snapshot<GhostCount>) -> WriteSink<W>
        ensures { ⟦<WriteSink<W> as Sink>⟧.seen result
            ≡ unwritten name.value (W.contents writer) }
    {
        WriteSink {
            writer,
            name,
            taken: GhostList::new(),
            calls: GhostCount::new(),
            failures: GhostCount::new(),
        }
    }

    /// The writer, with what it holds.
    pub fn writer(&self) -> &W
        ensures { W.contents result.now ≡ (⟦<WriteSink<W> as Sink>⟧.seen self.now).held }
    {
        &self.writer
    }
}

impl<W: Write + Drop> Sink for WriteSink<W> {
    ghost use Rattle.ghost_state.specs.GhostList.{items_of};

    ghost seen = { λ s. record {
      name = s.name.value;
      taken = items_of s.taken;
      held = W.contents s.writer;
      calls = s.calls;
      failures = s.failures;
    } };

    fn write_some(&mut self, octets: &[u8]) -> Result<usize, Fault> {
        self.calls.tick();
        match self.writer.write(octets) {
            Ok(count) if count > 0 || octets.is_empty() => {
                add_all(&mut self.taken, &octets[..count]);
                Ok(count)
            }
            _ => {
                self.failures.tick();
                Err(Fault::WriteFault)
            }
        }
    }

    fn flush(&mut self) -> Result<(), Fault> {
        match self.writer.flush() {
            Ok(()) => Ok(()),
            Err(_) => {
                self.failures.tick();
                Err(Fault::WriteFault)
            }
        }
    }
}
