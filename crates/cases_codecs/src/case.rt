//! A case: what the lines so far have fed and written.
use crate::appending::{appended, header, letters, number};
use crate::beyond::{beyond, faults};
use crate::devices::{reads, writes};
use crate::dictionaries::{copies, dictionary, get};
use crate::frames::{Stream, cut_everywhere};
use crate::great::great;
use crate::handshakes::{handshake, handshake_within, no_seat};
use crate::holding::{deep, octets, shared, text};
use crate::passing::{passing, token};
use crate::reading::{json, msgpack, nested};
use crate::sending::{failing_flush, held_back, no_room, threads};
use case_text::{Table, line_of, octets_of};
use std::alloc::Global;
use std::io;

/// What the lines of a case have fed and written so far.
#[derive(Drop)]
pub struct Case {
    stream: Stream,
}

impl Case {
    pub fn new(alloc: Global) -> Case {
        Case {
            stream: Stream::new(alloc),
        }
    }
}

impl Table for Case {
    fn take(&mut self, alloc: Global, line: &str) -> io::Result<String> {
        match line.split_once(' ') {
            Some(("#", _)) => {
                *self = Case::new(alloc);
                line_of(alloc, line)
            }
            Some(("feed", text)) => self.stream.feed(alloc, &octets_of(alloc, text)?),
            Some(("in-place", text)) => self.stream.in_place(alloc, &octets_of(alloc, text)?),
            Some(("frame", text)) => self.stream.frame(alloc, text),
            Some(("taking", text)) => self.stream.taking(alloc, text),
            Some(("bounded", text)) => self.stream.bounded(alloc, text),
            Some(("counted", text)) => self.stream.counted(alloc, text),
            Some(("zeros", text)) => self.stream.zeros(alloc, text),
            Some((word, text)) => told(alloc, word, text),
            None => self.told_alone(alloc, line),
        }
    }
}

impl Case {
    fn told_alone(&self, alloc: Global, word: &str) -> io::Result<String> {
        match word {
            "held" => self.stream.held(alloc),
            "written" => self.stream.written(alloc),
            "no-seat" => no_seat(alloc),
            "held-back" => held_back(alloc),
            "no-room" => no_room(alloc),
            "failing-flush" => failing_flush(alloc),
            "beyond" => beyond(alloc),
            "threads" => threads(alloc),
            "faults" => faults(alloc),
            _ => line_of(alloc, "no case has this word"),
        }
    }
}

fn told(alloc: Global, word: &str, rest: &str) -> io::Result<String> {
    match word {
        "json" => json(alloc, &octets_of(alloc, rest)?),
        "msgpack" => msgpack(alloc, &octets_of(alloc, rest)?),
        "nested" => nested(alloc, rest),
        "pass" => passing(alloc, rest),
        "token" => token(alloc, &octets_of(alloc, rest)?),
        "number" => number(alloc, rest),
        "letters" => letters(alloc, rest),
        "appended" => appended(alloc, &octets_of(alloc, rest)?),
        "great" => great(alloc, rest),
        "dict" => dictionary(alloc, rest),
        "get" => get(alloc, rest),
        "copies" => copies(alloc, rest),
        "deep" => deep(alloc, rest),
        "text" => text(alloc, rest),
        "octets" => octets(alloc, rest),
        "shared" => shared(alloc, rest),
        "handshake" => handshake(alloc, &octets_of(alloc, rest)?),
        "within" => handshake_within(alloc, rest),
        "header" => header(alloc, rest),
        "cut" => cut_everywhere(alloc, &octets_of(alloc, rest)?),
        "reads" => reads(alloc, rest),
        "writes" => writes(alloc, rest),
        _ => line_of(alloc, "no case has this word"),
    }
}
