//! What an acceptor is told of its streams, counted.
use threaded_server::{SessionEnds, StreamFate, WriteEnd};

/// How many streams had which fate.
#[derive(Clone, Copy, Drop)]
pub struct Tally {
    /// How many came back, and how many had when accepting was asked last.
    pub back: u64,
    pub back_when_asked: u64,
    pub served: u64,
    /// Of those that were served, whose writer stopped.
    pub stopped: u64,
    pub not_opened: u64,
    pub opened_alone: u64,
    pub no_seat: u64,
    pub no_memory: u64,
}

impl Tally {
    /// Of no stream yet.
    pub fn new() -> Tally {
        Tally {
            back: 0,
            back_when_asked: 0,
            served: 0,
            stopped: 0,
            not_opened: 0,
            opened_alone: 0,
            no_seat: 0,
            no_memory: 0,
        }
    }

    /// Accepting is asked.
    pub fn asks(&mut self) {
        self.back_when_asked = self.back;
    }

    /// Whether most of them had come back when accepting was asked last.
    pub fn were_most_back(&self) -> bool {
        self.back_when_asked > self.back / 2
    }

    /// Counts one more.
    pub fn count(&mut self, fate: StreamFate) {
        one_more(&mut self.back);
        match fate {
            StreamFate::Served(ends) => self.count_session(ends),
            StreamFate::NotOpened(_) => one_more(&mut self.not_opened),
            StreamFate::OpenedAlone => one_more(&mut self.opened_alone),
            StreamFate::NoSeat => one_more(&mut self.no_seat),
            StreamFate::NoMemory => one_more(&mut self.no_memory),
        }
    }

    fn count_session(&mut self, ends: SessionEnds) {
        one_more(&mut self.served);
        if ends.write == WriteEnd::Stopped {
            one_more(&mut self.stopped);
        }
    }
}

fn one_more(count: &mut u64) {
    *count = count.wrapping_add(1);
}
