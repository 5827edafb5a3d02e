#![tactic(auto)]

//! For drivers: devices round another one, which give and take one octet at a time, or fail at one call; and the frames
//! of a stream in pieces.
ghost use Rattle.std.specs.Prelude.{◌≡◌, ℕ, List, Some, IfOk, IfErr};
ghost use Rattle.std.specs.List.{flat_map};
ghost use Rattle.rawsocket.specs.Frames.{contents, fault_of, router_takes, Reads};

use ghost_state::GhostCount;
use rawsocket::devices::{Sink, Source};
use rawsocket::{Deframer, Fault, Fed};
use std::alloc::Global;

/// Gives or takes one octet at a time.
#[derive(Drop)]
pub struct OneByOne<D> {
    /// The device inside.
    pub device: D,
}

impl<D> OneByOne<D> {
    /// Round this device.
    pub fn new(device: D) -> OneByOne<D>
        ensures { result.device ≡ device }
    {
        OneByOne { device }
    }
}

impl<S: Source> Source for OneByOne<S> {
    ghost seen = { λ s. S.seen s.device };

    fn read_some(&mut self, buffer: &mut [u8]) -> Result<usize, Fault> {
        let most = buffer.len().min(1);
        self.device.read_some(&mut buffer[..most])
    }
}

impl<S: Sink> Sink for OneByOne<S> {
    ghost seen = { λ s. S.seen s.device };

    fn write_some(&mut self, octets: &[u8]) -> Result<usize, Fault> {
        let most = octets.len().min(1);
        self.device.write_some(&octets[..most])
    }

    fn flush(&mut self) -> Result<(), Fault> {
        self.device.flush()
    }
}

/// Fails at one call, and passes every other one on. Reads, writes and flushes are counted.
#[derive(Drop)]
pub struct FailsAt<D> {
    /// The device inside.
    pub device: D,
    before: Option<u64>,
    calls: GhostCount,
    failures: GhostCount,
}

impl<D> FailsAt<D> {
    /// Round this device; the call with this number fails, the first being 0.
    pub fn new(device: D, call: u64) -> FailsAt<D>
        ensures device { result.device ≡ device }
        ensures before { result.before ≡ Some call }
    {
        FailsAt {
            device,
            before: Some(call),
            calls: GhostCount::new(),
            failures: GhostCount::new(),
        }
    }

    /// Whether this call is to fail.
    fn is_due(&mut self) -> bool
        ensures device { self.new.device ≡ self.old.device }
        ensures calls { self.new.calls ≡ self.old.calls }
        ensures failures { self.new.failures ≡ self.old.failures }
    {
        match self.before {
            None => false,
            Some(0) => {
                self.before = None;
                true
            }
            Some(calls) => {
                self.before = Some(calls - 1);
                false
            }
        }
    }
}

impl<S: Source> Source for FailsAt<S> {
    ghost use Rattle.std.specs.Prelude.{◌+◌};

    ghost seen = { λ s. record (S.seen s.device) {
      calls = s.calls;
      failures = s.failures + (S.seen s.device).failures;
    } };

    fn read_some(&mut self, buffer: &mut [u8]) -> Result<usize, Fault> {
        self.calls.tick();
        if self.is_due() {
            self.failures.tick();
            return Err(Fault::ReadFault);
        }
        self.device.read_some(buffer)
    }
}

impl<S: Sink> Sink for FailsAt<S> {
    ghost use Rattle.std.specs.Prelude.{◌+◌};

    ghost seen = { λ s. record (S.seen s.device) {
      calls = s.calls;
      failures = s.failures + (S.seen s.device).failures;
    } };

    fn write_some(&mut self, octets: &[u8]) -> Result<usize, Fault> {
        self.calls.tick();
        if self.is_due() {
            self.failures.tick();
            return Err(Fault::WriteFault);
        }
        self.device.write_some(octets)
    }

    fn flush(&mut self) -> Result<(), Fault> {
        if self.is_due() {
            self.failures.tick();
            return Err(Fault::WriteFault);
        }
        self.device.flush()
    }
}

/// The frames of a stream that comes in these pieces, and the fault that ends them.
pub fn frames_of(alloc: Global, pieces: &[Vec<u8>]) -> Result<Fed, Fault>
    ensures reads { IfOk result (λ fed. (held : List ℕ)
        × Reads router_takes (flat_map (λ piece. piece.items) pieces.now)
        (contents fed.frames.items) held
        × (fed.fault ≡ fault_of router_takes held)) }
    ensures memory { IfErr result (λ e. e ≡ Fault.NoMemory) }
{
    let mut deframer = Deframer::new(alloc);
    let mut frames = Vec::new(alloc);
    for piece in pieces {
        let mut fed = deframer.feed(alloc, piece)?;
        frames.append(&mut fed.frames)?;
    }
    Ok(Fed {
        frames,
        fault: deframer.fault(),
    })
}
