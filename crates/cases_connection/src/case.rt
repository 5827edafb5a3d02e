//! The words of the table.
use crate::client::{Client, Devices, Manner, serializer_of};
use crate::pongs::hold_back;
use crate::reader::Stream;
use crate::sessions::{Sessions, threads};
use crate::writer::Debt;
use case_text::{line_of, number_of, octets_of};
use std::alloc::{AllocError, Global};
use std::io;
use std::sync::Wait;
use std::thread::Threads;

/// What the lines of a case have said so far.
#[derive(Drop)]
pub struct Case {
    client: Client,
    devices: Devices,
    debt: Debt,
    stream: Stream,
    sessions: Sessions,
}

impl Case {
    pub fn new(alloc: Global) -> Result<Case, AllocError> {
        Ok(Case {
            client: Client::least(),
            devices: Devices::good(),
            debt: Debt::new(alloc),
            stream: Stream::new(alloc),
            sessions: Sessions::none(alloc)?,
        })
    }

    /// Takes a line, and gives what it is answered by.
    pub fn take<R: Threads + Wait + Copy + Send + 'static>(
        &mut self,
        rt: &R,
        alloc: Global,
        line: &str,
    ) -> io::Result<String> {
        match line.split_once(' ') {
            Some(("#", _)) => {
                *self = Case::new(alloc)?;
                line_of(alloc, line)
            }
            Some(("pongs", text)) => hold_back(*rt, alloc, text),
            Some((word, text)) => self.set(alloc, line, word, text),
            None => self.run(rt, alloc, line),
        }
    }

    // Keeps what a line says.
    fn set(&mut self, alloc: Global, line: &str, word: &str, text: &str) -> io::Result<String> {
        match word {
            "client" => self.client = Client::of(text).unwrap_or(self.client),
            "early" => self.stream.early = octets_of(alloc, text)?,
            "octets" => {
                let octets = octets_of(alloc, text)?;
                self.stream.octets.extend_from_slice(octets.as_slice())?
            }
            "publish" => self.add_long("[16,7,{},\"", text)?,
            "subscribe" => self.add_long("[32,7,{},\"", text)?,
            "enter" => self.enter(text)?,
            "room" => self.stream.room = number_of(text) as usize,
            "fails" => self.devices.failing = number_of(text),
            "event" | "letters" | "published" | "pong" => self.owe(alloc, line)?,
            _ => return line_of(alloc, "no case has this word"),
        }
        Ok(String::new(alloc))
    }

    // Adds a request whose topic or pattern has so many letters, behind what it begins with.
    fn add_long(&mut self, before: &str, letters: &str) -> Result<(), AllocError> {
        let letters = number_of(letters) as usize;
        self.stream.add_long(before, letters, "\"]")
    }

    fn owe(&mut self, alloc: Global, line: &str) -> io::Result<()> {
        self.debt.lines.push(String::from_str(alloc, line)?)?;
        Ok(())
    }

    fn enter(&mut self, text: &str) -> io::Result<()> {
        match serializer_of(text) {
            Some(serializer) => self.sessions.enter(serializer),
            None => Ok(()),
        }
    }

    // Does what a word alone asks for.
    fn run<R: Wait + Copy>(&mut self, rt: &R, alloc: Global, word: &str) -> io::Result<String> {
        match word {
            "slowly" => self.devices.manner = Manner::Slow,
            "held" => self.devices.manner = Manner::Held,
            "fed" => self.devices.manner = Manner::Fed,
            "heard" => self.devices.manner = Manner::Heard,
            "goodbye" => self.owe(alloc, word)?,
            "leave" => self.sessions.leave(),
            "shared" => return self.sessions.shared(alloc),
            "others" => return self.sessions.others(alloc),
            "crossing" => return threads(alloc),
            "forward" => self.forward(rt, alloc)?,
            "write" => return self.debt.write(rt, alloc, self.client, self.devices),
            "writes" => {
                return self
                    .debt
                    .write_failing(rt, alloc, self.client, self.devices);
            }
            "read" => {
                let in_use = self.sessions.in_use();
                return self
                    .stream
                    .read(rt, alloc, in_use, self.client, self.devices);
            }
            "weigh" => {
                let in_use = self.sessions.in_use();
                return self
                    .stream
                    .weigh(rt, alloc, in_use, self.client, self.devices);
            }
            "reads" => {
                let in_use = self.sessions.in_use();
                return self
                    .stream
                    .read_failing(rt, alloc, in_use, self.client, self.devices);
            }
            _ => return line_of(alloc, "no case has this word"),
        }
        Ok(String::new(alloc))
    }

    // Reads the octets, and owes what they publish.
    fn forward<R: Wait + Copy>(&mut self, rt: &R, alloc: Global) -> io::Result<()> {
        let in_use = self.sessions.in_use();
        let published = self
            .stream
            .published(rt, alloc, in_use, self.client, self.devices)?;
        for args in published {
            self.debt.forward(alloc, args)?;
        }
        Ok(())
    }
}
