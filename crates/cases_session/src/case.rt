//! A case: the octets of a client, the devices, and the opening of its session.
use crate::holding::{args, trees};
use crate::opening::Stream;
use crate::publishing::{arguments, carried, event, threads};
use crate::saying::{payload, said};
use crate::telling::{faults, reasons, replies};
use crate::writing::{frame, frames};
use case_text::{Table, line_of, number_of, octets_of};
use rawsocket::Serializer;
use std::alloc::Global;
use std::io;

/// What the lines of a case have said so far.
#[derive(Drop)]
pub struct Case {
    stream: Stream,
}

impl Case {
    pub fn new(alloc: Global) -> Case {
        Case {
            stream: Stream::new(alloc),
        }
    }
}

impl Table for Case {
    fn take(&mut self, alloc: Global, line: &str) -> io::Result<String> {
        match line.split_once(' ') {
            Some(("#", _)) => {
                self.stream = Stream::new(alloc);
                line_of(alloc, line)
            }
            Some(("say", json)) => said(alloc, json),
            Some(("text", text)) => payload(alloc, Serializer::Json, &octets_of(alloc, text)?),
            Some(("payload", text)) => payload(
                alloc,
                Serializer::MsgPack,
                &octets_of(alloc, text)?,
            ),
            Some(("event", text)) => event(alloc, text),
            Some(("carried", json)) => carried(alloc, json),
            Some(("args", text)) => args(alloc, &octets_of(alloc, text)?),
            Some(("trees", json)) => trees(alloc, json),
            Some(("frames", serializer)) => frames(alloc, serializer),
            Some(("frame", words)) => frame(alloc, words),
            Some(("realms", names)) => self.stream.take_realms(alloc, names),
            Some(("within", octets)) => self.stream.take_bound(alloc, number_of(octets)),
            Some((word, text)) => self.set(alloc, word, text),
            None => self.run(alloc, line),
        }
    }
}

impl Case {
    fn set(&mut self, alloc: Global, word: &str, text: &str) -> io::Result<String> {
        match word {
            "octets" => self
                .stream
                .octets
                .extend_from_slice(&octets_of(alloc, text)?)?,
            "then" => self.stream.behind = octets_of(alloc, text)?,
            "repeat" => self.repeat(text)?,
            "first" => self.stream.octets.truncate(number_of(text) as usize),
            "read" => self.stream.failing_read = number_of(text),
            "write" => self.stream.failing_write = number_of(text),
            _ => return line_of(alloc, "no case has this word"),
        }
        Ok(String::new(alloc))
    }

    /// Adds so many octets, as in `101 x`.
    fn repeat(&mut self, text: &str) -> io::Result<()> {
        let octet = text.as_bytes().last().copied().unwrap_or(b' ');
        for _ in 0..number_of(text) {
            self.stream.octets.push(octet)?;
        }
        Ok(())
    }

    fn run(&mut self, alloc: Global, word: &str) -> io::Result<String> {
        match word {
            "slowly" => {
                self.stream.is_slow = true;
                Ok(String::new(alloc))
            }
            "open" => self.stream.told(alloc),
            "reads" => self.stream.told_of_reads(alloc),
            "writes" => self.stream.told_of_writes(alloc),
            "arguments" => arguments(alloc),
            "threads" => threads(alloc),
            "replies" => replies(alloc),
            "reasons" => reasons(alloc),
            "faults" => faults(alloc),
            _ => line_of(alloc, "no case has this word"),
        }
    }
}
