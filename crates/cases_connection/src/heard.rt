//! A device that gives nothing while who receives sleeps.
use rawsocket::Fault;
use rawsocket::devices::Source;
use std::sync::atomic::{AtomicU64, Ordering};
use std::sync::{Arc, Wait};

/// Each read ends only once who receives was woken behind all that was posted: a reader that reads on before waits for ever.
#[derive(Drop)]
pub struct Heard<R: Wait + Copy, I> {
    pub rt: R,
    pub device: I,
    /// How many posts sleep.
    pub asleep: Arc<AtomicU64>,
}

impl<R: Wait + Copy, I: Source> Source for Heard<R, I> {
    ghost seen = { λ s. I.seen s.device };

    fn read_some(&mut self, buffer: &mut [u8]) -> Result<usize, Fault> {
        for _ in self.rt.forever() {
            if self.asleep.load(Ordering::SeqCst) == 0 {
                break;
            }
        }
        self.device.read_some(buffer)
    }
}
