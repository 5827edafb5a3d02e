//! A device that adds the next item to an outbox once it was told to pass on what it holds.
use crate::owed::Adder;
use rawsocket::Fault;
use rawsocket::devices::Sink;
use std::sync::Wait;

/// Each item comes once all before it was passed on: a writer that holds something back waits for ever.
#[derive(Drop)]
pub struct Fed<R: Wait + Copy, O> {
    pub rt: R,
    pub device: O,
    pub adder: Adder,
}

impl<R: Wait + Copy, O: Sink> Sink for Fed<R, O> {
    ghost seen = { λ s. O.seen s.device };

    fn write_some(&mut self, octets: &[u8]) -> Result<usize, Fault> {
        self.device.write_some(octets)
    }

    fn flush(&mut self) -> Result<(), Fault> {
        match self.device.flush() {
            Ok(()) => {
                self.adder.add(&self.rt);
                Ok(())
            }
            Err(fault) => Err(fault),
        }
    }
}
