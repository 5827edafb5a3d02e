//! What a command says of the time that it takes.
use client_commands::{Arrival, Timing};
use std::alloc::{AllocError, Global};
use std::collections::VecDeque;

/// What a command is told that waits for the broker and its input.
#[derive(Clone, Copy, Drop)]
pub enum Coming {
    /// Something comes from there.
    From(Arrival),
    /// Something comes from the broker if frames of it wait, and else from the input.
    Held,
}

/// No time passes; what is due is told, where that is wanted.
#[derive(Drop)]
pub struct Told {
    is_wanted: bool,
    /// What comes next; from the input, behind the last.
    coming: VecDeque<Coming>,
    line: Result<String, AllocError>,
}

impl Told {
    /// Nothing is told so far.
    pub fn new(alloc: Global, is_wanted: bool) -> Told {
        Told::with(alloc, is_wanted, VecDeque::new(alloc))
    }

    /// The same, and this comes.
    pub fn with(alloc: Global, is_wanted: bool, coming: VecDeque<Coming>) -> Told {
        let line = if is_wanted {
            String::from_str(alloc, "timing")
        } else {
            Ok(String::new(alloc))
        };
        Told {
            is_wanted,
            coming,
            line,
        }
    }

    /// What was told, as a line.
    ///
    /// # Errors
    /// [`AllocError`] where a growth was refused, also before.
    pub fn into_line(self) -> Result<String, AllocError> {
        let mut line = self.line?;
        if self.is_wanted {
            line.push('\n')?;
        }
        Ok(line)
    }

    /// Adds what is told.
    fn add(&mut self, word: &str) -> Result<(), AllocError> {
        if let Ok(line) = &mut self.line {
            line.push_str(if line.len() > 6 { ", " } else { " " })?;
            line.push_str(word)?;
        }
        Ok(())
    }
}

impl Timing for Told {
    fn awaits(&mut self) {}

    fn rest(&mut self) {}

    fn expects(&mut self, is_due: bool) {
        if !self.is_wanted {
            return;
        }
        let word = if is_due { "due" } else { "not due" };
        if let Err(refused) = self.add(word) {
            self.line = Err(refused);
        }
    }

    fn waits(&mut self, is_held: bool) -> Arrival {
        match self.coming.pop_front() {
            Some(Coming::From(arrival)) => arrival,
            Some(Coming::Held) if is_held => Arrival::Broker,
            _ => Arrival::Input,
        }
    }
}
