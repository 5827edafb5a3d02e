//! One connection after another, over memory.
use crate::case::{Failing, NONE, ROOM};
use crate::timings::Told;
use case_devices::FailsAt;
use client_commands::{Dialer, Fault, Listener, SubscribeCommand, subscribe_once};
use rawsocket::devices::{MemorySource, Sink, WriteSink};
use std::alloc::{AllocError, Global};
use std::collections::VecDeque;

/// What the broker sends over each connection, and what came of those before.
#[derive(Drop)]
pub struct Connections {
    coming: VecDeque<Option<Vec<u8>>>,
    is_timed: bool,
    failing: Failing,
    written: Vec<u8>,
    told: String,
    refused: bool,
}

impl Connections {
    /// None so far. The calls of the first one fail so.
    pub fn new(alloc: Global, is_timed: bool, failing: Failing) -> Connections {
        Connections {
            coming: VecDeque::new(alloc),
            is_timed,
            failing,
            written: Vec::new(alloc),
            told: String::new(alloc),
            refused: false,
        }
    }

    /// One more. Nothing stands for one that can't be made.
    pub fn add(&mut self, octets: Option<Vec<u8>>) -> Result<(), AllocError> {
        match self.coming.push_back(octets) {
            Ok(()) => Ok(()),
            Err(_) => Err(AllocError),
        }
    }

    /// What was written over all of them, and what was told between.
    ///
    /// # Errors
    /// [`AllocError`] where a growth was refused, also before.
    pub fn into_told(self) -> Result<(Vec<u8>, String), AllocError> {
        if self.refused {
            return Err(AllocError);
        }
        Ok((self.written, self.told))
    }

    /// Adds what came of a connection.
    fn note(&mut self, written: &[u8], timing: Told) -> Result<(), AllocError> {
        self.written.extend_from_slice(written)?;
        self.told.push_str(timing.into_line()?.as_str())
    }

    /// Adds a pause.
    fn note_pause(&mut self, alloc: Global, seconds: u32, fault: Fault) -> Result<(), AllocError> {
        let line = format!(in alloc; "waited {seconds}, {fault}\n")?;
        self.told.push_str(line.as_str())
    }
}

impl Dialer for Connections {
    fn subscribe<P: Sink, N: Sink>(
        &mut self,
        alloc: Global,
        command: &SubscribeCommand,
        listener: &mut Listener,
        output: &mut P,
        notes: &mut N,
    ) -> Result<(), Fault> {
        let Some(next) = self.coming.pop_front() else {
            listener.miss();
            return Err(Fault::Usage);
        };
        let Some(octets) = next else {
            listener.miss();
            return Err(Fault::Unreachable);
        };
        let Ok(room) = Vec::with_capacity(alloc, ROOM) else {
            listener.miss();
            return Err(Fault::NoMemory);
        };
        let mut source = FailsAt::new(MemorySource::new(octets), self.failing.read);
        let mut sink = FailsAt::new(WriteSink::new(room), self.failing.write);
        self.failing = NONE;
        let mut timing = Told::new(alloc, self.is_timed);
        let ran = subscribe_once(
            alloc,
            command,
            listener,
            &mut source,
            &mut sink,
            output,
            notes,
            &mut timing,
        );
        if self.note(sink.device.writer().as_slice(), timing).is_err() {
            self.refused = true;
        }
        ran
    }

    fn wait(&mut self, alloc: Global, seconds: u32, fault: Fault) {
        if self.note_pause(alloc, seconds, fault).is_err() {
            self.refused = true;
        }
    }
}
