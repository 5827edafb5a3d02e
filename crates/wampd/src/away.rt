//! What a subscriber tells of the time without a connection.
use crate::failure::Failure;
use broker_server::report_failure;
use jiff::Timestamp;
use rawsocket::devices::{Sink, Turns, send};
use std::alloc::{AllocError, Global};
use std::time::{Clock, SystemTime};

/// Since when a subscriber is without a connection, and where it tells of that.
#[derive(Drop)]
pub struct Away<E: Sink + Drop> {
    alloc: Global,
    errors: E,
    since: Option<SystemTime>,
}

impl<E: Sink + Drop> Away<E> {
    /// It isn't away.
    pub fn new(alloc: Global, errors: E) -> Away<E> {
        Away {
            alloc,
            errors,
            since: None,
        }
    }

    /// Tells why there is no connection, and when the next one is tried.
    pub fn begin<R: Clock>(&mut self, clock: &R, failure: &Failure, seconds: u32) {
        if self.since.is_none() {
            self.since = SystemTime::now(clock).ok();
        }
        let _ = report_failure(&failure.fault, &failure.more, &mut self.errors);
        let line = format!(in self.alloc; "connecting again in {seconds} s\n");
        self.tell(line);
    }

    /// Tells how long it was away, if it was.
    pub fn end<R: Clock>(&mut self, clock: &R) {
        let Some(since) = self.since else {
            return;
        };
        self.since = None;
        let line = self.line_of(clock, since);
        self.tell(line);
    }

    /// What is told of the time that is over.
    fn line_of<R: Clock>(&self, clock: &R, since: SystemTime) -> Result<String, AllocError> {
        let seconds = match since.elapsed(clock) {
            Ok(away) => away.as_secs(),
            Err(_) => 0,
        };
        match Timestamp::try_from(since) {
            Ok(since) => format!(in self.alloc;
                "subscribed again: away since {since}, for {seconds} s; what was published meanwhile may be missed\n"
            ),
            Err(_) => format!(in self.alloc;
                "subscribed again: away for {seconds} s; what was published meanwhile may be missed\n"
            ),
        }
    }

    /// Tells a line. Where that fails it is passed over, as with other notes.
    fn tell(&mut self, line: Result<String, AllocError>) {
        if let Ok(line) = line {
            let _ = send(&mut self.errors, line.as_bytes(), &mut Turns::new());
        }
    }
}
