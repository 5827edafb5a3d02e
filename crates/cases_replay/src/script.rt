//! A replay over devices that may fail.
use crate::outcome::Outcome;
use broker_config::{Config, Ids};
use case_devices::{FailsAt, OneByOne};
use command_line::{Fault, read_grants};
use rawsocket::devices::{MemorySource, Sink, Source, WriteSink};
use replay::replay;
use std::alloc::Global;
use std::io;
use wamp_ids::Topic;

/// Room for all that a replay of a case writes, so that its sink fails where a call is to fail, and
/// nowhere else.
const ROOM: usize = 1 << 20;

/// No replay makes a call with this number.
const NEVER: u64 = u64::MAX;

/// What is replayed, and over which devices.
#[derive(Drop)]
pub struct Script {
    pub grants: String,
    pub input: String,
    pub is_slow: bool,
    pub failing_read: u64,
    pub failing_write: u64,
}

impl Script {
    /// Nothing, over devices that don't fail.
    pub fn new(alloc: Global) -> Script {
        Script {
            grants: String::new(alloc),
            input: String::new(alloc),
            is_slow: false,
            failing_read: NEVER,
            failing_write: NEVER,
        }
    }

    /// Adds octets to the input.
    pub fn add(&mut self, text: &str, end: &str) -> io::Result<()> {
        self.input.push_str(text)?;
        self.input.push_str(end)?;
        Ok(())
    }

    /// What the replay writes, and its fault.
    pub fn told(&self, alloc: Global) -> io::Result<String> {
        self.run(alloc, self.failing_read, self.failing_write)?
            .told(alloc)
    }

    /// What it comes to for each read that fails, the first one first, until none does.
    pub fn told_of_reads(&self, alloc: Global) -> io::Result<String> {
        let whole = self.run(alloc, NEVER, NEVER)?;
        let mut told = whole.want_of_memory(alloc)?;
        for call in 0..NEVER {
            let outcome = self.run(alloc, call, NEVER)?;
            outcome.add_to(alloc, &mut told, &whole)?;
            if outcome.fault != Some(Fault::ReadFault) {
                break;
            }
        }
        Ok(told)
    }

    /// What it comes to for each write that fails, and each flush.
    pub fn told_of_writes(&self, alloc: Global) -> io::Result<String> {
        let whole = self.run(alloc, NEVER, NEVER)?;
        let mut told = whole.want_of_memory(alloc)?;
        for call in 0..NEVER {
            let outcome = self.run(alloc, NEVER, call)?;
            outcome.add_to(alloc, &mut told, &whole)?;
            if outcome.fault != Some(Fault::WriteFault) {
                break;
            }
        }
        Ok(told)
    }

    // Replays where these calls fail.
    fn run(&self, alloc: Global, failing_read: u64, failing_write: u64) -> io::Result<Outcome> {
        let source = MemorySource::new(self.input.as_str().as_bytes().to_vec(alloc)?);
        let sink = WriteSink::new(Vec::with_capacity(alloc, ROOM)?);
        if self.is_slow {
            let mut source = FailsAt::new(OneByOne::new(source), failing_read);
            let mut sink = FailsAt::new(OneByOne::new(sink), failing_write);
            let fault = self.fault_of(alloc, &mut source, &mut sink)?;
            let octets = sink.device.device.writer().as_slice().to_vec(alloc)?;
            Ok(Outcome { octets, fault })
        } else {
            let mut source = FailsAt::new(source, failing_read);
            let mut sink = FailsAt::new(sink, failing_write);
            let fault = self.fault_of(alloc, &mut source, &mut sink)?;
            let octets = sink.device.writer().as_slice().to_vec(alloc)?;
            Ok(Outcome { octets, fault })
        }
    }

    /// Replays over these devices.
    fn fault_of<I: Source, O: Sink>(
        &self,
        alloc: Global,
        source: &mut I,
        sink: &mut O,
    ) -> io::Result<Option<Fault>> {
        let config = match self.config(alloc)? {
            Ok(config) => config,
            Err(fault) => return Ok(Some(fault)),
        };
        if config.realms.is_empty() {
            return Ok(None);
        }
        match replay(alloc, source, sink, &config) {
            Ok(()) => Ok(None),
            Err(fault) => Ok(Some(Fault::from(fault))),
        }
    }

    fn config(&self, alloc: Global) -> io::Result<Result<Config, Fault>> {
        let Ok(realm) = Topic::read(alloc, "r.one") else {
            return Ok(Err(Fault::NoMemory));
        };
        let realms = vec![in alloc; realm]?;
        match read_grants(alloc, self.grants.as_str()) {
            Ok(grants) => Ok(Ok(Config {
                realms,
                grants,
                outbox: 256,
                ids: Ids::Count,
            })),
            Err(fault) => Ok(Err(fault)),
        }
    }
}
