//! A case: who publishes and who receives.
use crate::admitting::{
    beyond, everyone, lists, nobody, standing, taken, threads, who_in_words, who_of,
};
use crate::asking::options;
use crate::matching::{dot, matches, pattern, same};
use crate::naming::{conn, faults, id, moved, topic, word};
use case_text::{Table, line_of};
use eligibility::Who;
use std::alloc::Global;
use std::io;

/// Who publishes and who receives, as far as the lines of a case have said.
#[derive(Drop)]
pub struct Case {
    publisher: Option<Who>,
    receiver: Option<Who>,
}

impl Case {
    pub fn new() -> Case {
        Case {
            publisher: None,
            receiver: None,
        }
    }
}

impl Table for Case {
    fn take(&mut self, alloc: Global, line: &str) -> io::Result<String> {
        match line.split_once(' ') {
            Some(("#", _)) => {
                *self = Case::new();
                line_of(alloc, line)
            }
            Some(("publisher", text)) => {
                self.publisher = who_of(alloc, text)?;
                who_in_words(alloc, &self.publisher)
            }
            Some(("receiver", text)) => {
                self.receiver = who_of(alloc, text)?;
                who_in_words(alloc, &self.receiver)
            }
            Some(("admits", json)) => lists(alloc, json, &self.receiver, &self.publisher),
            Some(("takes", json)) => taken(alloc, json, &self.receiver, &self.publisher),
            Some(("stands", octets)) => standing(alloc, octets, &self.receiver, &self.publisher),
            Some(("beyond", key)) => beyond(alloc, key, &self.receiver, &self.publisher),
            Some(("options", text)) => options(alloc, text, &self.receiver, &self.publisher),
            Some((word, text)) => told(alloc, word, text),
            None => self.told_alone(alloc, line),
        }
    }
}

impl Case {
    fn told_alone(&self, alloc: Global, word: &str) -> io::Result<String> {
        match word {
            "everyone" => everyone(alloc, &self.receiver, &self.publisher),
            "threads" => threads(alloc),
            "faults" => faults(alloc),
            _ => line_of(alloc, "no case has this word"),
        }
    }
}

fn told(alloc: Global, name: &str, text: &str) -> io::Result<String> {
    match name {
        "id" => id(alloc, text),
        "conn" => conn(alloc, text),
        "word" => word(alloc, text),
        "topic" => topic(alloc, text),
        "moved" => moved(alloc, text),
        "pattern" => pattern(alloc, text),
        "matches" => matches(alloc, text),
        "same" => same(alloc, text),
        "dot" => dot(alloc, text),
        "nobody" => nobody(alloc, text),
        _ => line_of(alloc, "no case has this word"),
    }
}
