//! From a line to its answer.
use crate::hearing::heard;
use crate::saying::{deep, faults, said};
use crate::talking::{Stream, link_faults};
use crate::wishing::{publish, subscribe};
use case_text::{Table, line_of, number_of, octets_of};
use client_session::Serializer;
use rawsocket::Kind;
use std::alloc::Global;
use std::io;

/// What the lines of a case have said so far.
#[derive(Drop)]
pub struct Case {
    stream: Stream,
}

impl Case {
    pub fn new(alloc: Global) -> Case {
        Case {
            stream: Stream::new(alloc),
        }
    }
}

impl Table for Case {
    fn take(&mut self, alloc: Global, line: &str) -> io::Result<String> {
        match line.split_once(' ') {
            Some(("#", _)) => {
                self.stream = Stream::new(alloc);
                line_of(alloc, line)
            }
            Some(("say", json)) => said(alloc, json),
            Some(("deep", levels)) => deep(alloc, number_of(levels)),
            Some(("subscribe", words)) => subscribe(alloc, words),
            Some(("publish", words)) => publish(alloc, words),
            Some(("hear", json)) => heard(alloc, json),
            Some(("message", text)) => self.stream.add_frame(alloc, Kind::Message, text),
            Some(("ping", text)) => self.stream.add_frame(alloc, Kind::Ping, text),
            Some(("pong", text)) => self.stream.add_frame(alloc, Kind::Pong, text),
            Some(("says", json)) => self.stream.add_saying(alloc, json),
            Some((word, text)) => self.set(alloc, word, text),
            None => self.run(alloc, line),
        }
    }
}

impl Case {
    fn set(&mut self, alloc: Global, word: &str, text: &str) -> io::Result<String> {
        match word {
            "octets" => self
                .stream
                .octets
                .extend_from_slice(&octets_of(alloc, text)?)?,
            "repeat" => self.repeat(text)?,
            "first" => self.stream.octets.truncate(number_of(text) as usize),
            "read" => self.stream.failing_read = number_of(text),
            "write" => self.stream.failing_write = number_of(text),
            _ => return line_of(alloc, "no case has this word"),
        }
        Ok(String::new(alloc))
    }

    /// Adds so many octets, as in `101 x`.
    fn repeat(&mut self, text: &str) -> io::Result<()> {
        let octet = text.as_bytes().last().copied().unwrap_or(b' ');
        for _ in 0..number_of(text) {
            self.stream.octets.push(octet)?;
        }
        Ok(())
    }

    fn run(&mut self, alloc: Global, word: &str) -> io::Result<String> {
        match word {
            "msgpack" => {
                self.stream.serializer = Serializer::MsgPack;
                Ok(String::new(alloc))
            }
            "slowly" => {
                self.stream.is_slow = true;
                Ok(String::new(alloc))
            }
            "looks" => {
                self.stream.is_looking = true;
                Ok(String::new(alloc))
            }
            "link" => self.stream.told(alloc),
            "reads" => self.stream.told_of_reads(alloc),
            "writes" => self.stream.told_of_writes(alloc),
            "faults" => faults(alloc),
            "link_faults" => link_faults(alloc),
            _ => line_of(alloc, "no case has this word"),
        }
    }
}
