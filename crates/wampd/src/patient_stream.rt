//! A stream to a broker that has to answer in time.
ghost use Rattle.std.specs.Prelude.{◌≡◌, ◌⊎◌, ◌≤◌, ◌-◌, ◌*◌, ◌/◌};

use crate::arrivals::first_arrival;
use client_commands::{Arrival, Timing};
use std::cell::Cell;
use std::io::{self, ErrorKind, Read, Write};
use std::net::TcpStream;
use std::os::fd::{AsRawFd, RawFd};
use std::thread;
use std::time::{Clock, Duration, Instant};

/// How many microseconds a publisher rests at least, so that those who hear it get a processor.
const SHORTEST_REST: u64 = 1_000;

/// How many it rests at most.
const LONGEST_REST: u64 = 200_000;

/// How many times as long as the answers took: whoever hears what is published has more to do, and waits for a processor as the
/// broker did.
const REST_FOR_WAIT: u64 = 4;

/// How many microseconds answers are taken to have needed before the first ones came.
const FIRST_WAIT: u64 = 4_000;

/// A stream that tells where a read or a write took longer than its limit.
#[derive(Drop)]
pub struct PatientStream<'a> {
    stream: &'a TcpStream,
    is_late: &'a Cell<bool>,
}

impl<'a> PatientStream<'a> {
    /// The stream, and the place where it is told.
    pub fn new(stream: &'a TcpStream, is_late: &'a Cell<bool>) -> PatientStream<'a> {
        PatientStream { stream, is_late }
    }

    /// Tells whether this was the limit. Where probes of TCP aren't answered the error is another one.
    fn note(&self, error: &io::Error) {
        if error.kind() == ErrorKind::WouldBlock {
            self.is_late.set(true);
        }
    }
}

impl Read for PatientStream<'_> {
    fn read(&mut self, buffer: &mut [u8]) -> io::Result<usize> {
        let mut stream = self.stream;
        match stream.read(buffer) {
            Ok(count) => Ok(count),
            Err(error) => {
                self.note(&error);
                Err(error)
            }
        }
    }
}

impl Write for PatientStream<'_> {
    fn write(&mut self, octets: &[u8]) -> io::Result<usize> {
        let mut stream = self.stream;
        match stream.write(octets) {
            Ok(count) => Ok(count),
            Err(error) => {
                self.note(&error);
                Err(error)
            }
        }
    }

    fn flush(&mut self) -> io::Result<()> {
        Ok(())
    }
}

/// The time that a client takes over its stream.
#[derive(Drop)]
pub struct StreamTiming<'a, R: Clock> {
    clock: &'a R,
    stream: &'a TcpStream,
    input: RawFd,
    limit: Duration,
    awaited: Option<Instant>,
    longest_wait: u64,
}

impl<'a, R: Clock> StreamTiming<'a, R> {
    /// Answers that are due may take so long; what is published comes from this input.
    pub fn new(
        clock: &'a R,
        stream: &'a TcpStream,
        input: RawFd,
        limit: Duration,
    ) -> StreamTiming<'a, R> {
        StreamTiming {
            clock,
            stream,
            input,
            limit,
            awaited: None,
            longest_wait: FIRST_WAIT,
        }
    }

    /// How many microseconds answers have been awaited; none where no clock tells.
    fn waited(&self) -> u64 {
        match &self.awaited {
            Some(since) => match since.elapsed(self.clock) {
                Ok(time) => u64::try_from(time.as_micros()).unwrap_or(LONGEST_REST),
                Err(_) => 0,
            },
            None => 0,
        }
    }
}

/// The longest that answers needed of late, in microseconds, now that some needed so many: what was longer before counts less by an
/// eighth each time.
fn longest_of_late(before: u64, waited: u64) -> u64
    ensures longest { (waited ≤ result) × (before - before / 8 ≤ result) }
    ensures one { (result ≡ waited) ⊎ (result ≡ before - before / 8) }
{
    let faded = before - before / 8;
    if faded < waited { waited } else { faded }
}

/// How many microseconds a publisher rests whose answers needed so many.
fn rest_behind(waited: u64) -> u64
    ensures least { 1000 ≤ result }
    ensures most { result ≤ 200000 }
    ensures between { (1000 ≤ 4 * waited) → (4 * waited ≤ 200000) → result ≡ 4 * waited }
{
    if waited < SHORTEST_REST / REST_FOR_WAIT {
        SHORTEST_REST
    } else if waited > LONGEST_REST / REST_FOR_WAIT {
        LONGEST_REST
    } else {
        REST_FOR_WAIT * waited
    }
}

impl<R: Clock> Timing for StreamTiming<'_, R> {
    fn awaits(&mut self) {
        self.awaited = Instant::now(self.clock).ok();
    }

    fn rest(&mut self) {
        self.longest_wait = longest_of_late(self.longest_wait, self.waited());
        let rest = rest_behind(self.longest_wait);
        thread::sleep(self.clock, Duration::from_micros(rest));
    }

    fn expects(&mut self, is_due: bool) {
        let limit = if is_due { Some(self.limit) } else { None };
        let _ = self.stream.set_read_timeout(limit);
    }

    fn waits(&mut self, is_held: bool) -> Arrival {
        if is_held {
            return Arrival::Broker;
        }
        first_arrival(self.stream.as_raw_fd(), self.input)
    }
}
