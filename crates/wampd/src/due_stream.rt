//! A stream to a broker that has to answer by a time.
use crate::patient_stream::PatientStream;
use std::cell::Cell;
use std::io::{self, ErrorKind, Read, Write};
use std::net::TcpStream;
use std::time::{Clock, Duration, Instant};

/// What comes over the stream has to be here within this time from now on, however much it is.
pub fn begin<R: Clock>(
    clock: &R,
    stream: &TcpStream,
    limit: Duration,
    due: &Cell<Option<Instant>>,
) {
    due.set(match Instant::now(clock) {
        Ok(now) => now.checked_add(limit),
        Err(_) => None,
    });
    let _ = stream.set_read_timeout(Some(limit));
}

/// What comes over the stream may take for ever.
pub fn end(stream: &TcpStream, due: &Cell<Option<Instant>>) {
    due.set(None);
    let _ = stream.set_read_timeout(None);
}

/// A stream that tells where a write took longer than its limit, or an answer came too late.
#[derive(Drop)]
pub struct DueStream<'a, R: Clock> {
    clock: &'a R,
    stream: &'a TcpStream,
    due: &'a Cell<Option<Instant>>,
    is_late: &'a Cell<bool>,
}

impl<'a, R: Clock> DueStream<'a, R> {
    /// The stream, by when an answer has to come, and the place where it is told that none did.
    pub fn new(
        clock: &'a R,
        stream: &'a TcpStream,
        due: &'a Cell<Option<Instant>>,
        is_late: &'a Cell<bool>,
    ) -> DueStream<'a, R> {
        DueStream {
            clock,
            stream,
            due,
            is_late,
        }
    }

    /// Lets the next read take what is left of the time.
    fn prepare(&self) -> io::Result<()> {
        let Some(due) = self.due.get() else {
            return Ok(());
        };
        let now = Instant::now(self.clock)?;
        match due.checked_duration_since(now) {
            Some(left) if !left.is_zero() => self.stream.set_read_timeout(Some(left)),
            _ => Err(io::Error::from(ErrorKind::TimedOut)),
        }
    }
}

impl<R: Clock> Read for DueStream<'_, R> {
    fn read(&mut self, buffer: &mut [u8]) -> io::Result<usize> {
        if let Err(error) = self.prepare() {
            self.is_late.set(true);
            return Err(error);
        }
        PatientStream::new(self.stream, self.is_late).read(buffer)
    }
}

impl<R: Clock> Write for DueStream<'_, R> {
    fn write(&mut self, octets: &[u8]) -> io::Result<usize> {
        PatientStream::new(self.stream, self.is_late).write(octets)
    }

    fn flush(&mut self) -> io::Result<()> {
        Ok(())
    }
}
