//! Devices over memory. The source never fails; the sink fails where a growth is refused.
ghost use Rattle.std.specs.Prelude.{◌≡◌, [], Some, length, min, take};
ghost use Rattle.rawsocket.specs.Devices.{unread, unwritten};

use crate::devices::device::{Sink, Source, tells_end};
use crate::fault::Fault;
use ghost_state::GhostCount;
use std::alloc::Global;
use std::marker::Model;

/// A reader of octets. What it gave and what is left are all of them; its name is 0.
#[derive(Drop)]
pub struct MemorySource {
    octets: Vec<u8>,
    at: usize,
    is_ended: bool,
    calls: GhostCount,
}

impl Model for MemorySource {
    ghost use Rattle.std.specs.Prelude.{◌≤◌, Some, length, take, drop};
    ghost use Rattle.rawsocket.specs.Devices.{Reading};

    ghost Value = { Reading };

    ghost view = { λ s. record {
      name = 0;
      given = take s.at s.octets.items;
      left = Some (drop s.at s.octets.items);
      is_ended = s.is_ended;
      calls = s.calls;
      failures = 0;
    } };

    ghost invariant = { λ s. s.at ≤ length s.octets.items };
}

impl MemorySource {
    /// None of the octets is read so far.
    pub fn new(octets: Vec<u8>) -> MemorySource
        ensures { result ≡ unread 0 (Some octets.items) }
    {
        MemorySource {
            octets,
            at: 0,
            is_ended: false,
            calls: GhostCount::new(),
        }
    }
}

/// Copies as many octets as there are and as there is room for, and gives their count.
fn copy_front(octets: &[u8], buffer: &mut [u8]) -> usize
    ensures count { result ≡ min (length octets.now) (length buffer.new) }
    ensures copied { take result buffer.new ≡ take result octets.now }
{
    let count = octets.len().min(buffer.len());
    buffer[..count].copy_from_slice(&octets[..count]);
    count
}

impl Source for MemorySource {
    ghost seen = { λ s. s };

    fn read_some(&mut self, buffer: &mut [u8]) -> Result<usize, Fault> {
        self.calls.tick();
        let (_, left) = self.octets.split_at(self.at);
        let count = copy_front(left, buffer);
        self.at += count;
        self.is_ended |= tells_end(count, buffer);
        Ok(count)
    }
}

/// A writer into memory. Its name is 0.
#[derive(Drop)]
pub struct MemorySink {
    octets: Vec<u8>,
    calls: GhostCount,
    failures: GhostCount,
}

impl Model for MemorySink {
    ghost use Rattle.std.specs.Prelude.{Some};
    ghost use Rattle.rawsocket.specs.Devices.{Writing};

    ghost Value = { Writing };

    ghost view = { λ s. record {
      name = 0;
      taken = s.octets.items;
      held = Some s.octets.items;
      calls = s.calls;
      failures = s.failures;
    } };
}

impl MemorySink {
    /// Nothing is written so far.
    pub fn new(alloc: Global) -> MemorySink
        ensures { result ≡ unwritten 0 (Some []) }
    {
        MemorySink {
            octets: Vec::new(alloc),
            calls: GhostCount::new(),
            failures: GhostCount::new(),
        }
    }

    /// What was written.
    pub fn octets(&self) -> &[u8]
        ensures { result.now ≡ self.now.taken }
    {
        self.octets.as_slice()
    }
}

impl Sink for MemorySink {
    ghost seen = { λ s. s };

    fn write_some(&mut self, octets: &[u8]) -> Result<usize, Fault> {
        self.calls.tick();
        if self.octets.extend_from_slice(octets).is_err() {
            self.failures.tick();
            return Err(Fault::WriteFault);
        }
        Ok(octets.len())
    }

    fn flush(&mut self) -> Result<(), Fault> {
        Ok(())
    }
}
