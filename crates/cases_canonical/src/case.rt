//! A case: each line is answered by itself.
use crate::canonical::{canonical, same, shape};
use crate::json::json;
use crate::looking::{get, look};
use crate::reading::{take, unread};
use crate::transliterating::{transliterate, transliterate_long};
use crate::walking::entries;
use case_text::{Table, line_of, octets_of, part};
use std::alloc::Global;
use std::io;

/// What the lines of a case have done so far: nothing.
#[derive(Drop)]
pub struct Case;

impl Table for Case {
    fn take(&mut self, alloc: Global, line: &str) -> io::Result<String> {
        let (word, text) = part(line);
        match word {
            "#" => line_of(alloc, line),
            "canonical" => canonical(alloc, text),
            "same" => same(alloc, &octets_of(alloc, text)?),
            "json" => json(alloc, &octets_of(alloc, text)?),
            "shape" => shape(alloc, text),
            "look" => look(alloc, &octets_of(alloc, text)?),
            "get" => get(alloc, text),
            "entries" => entries(alloc, &octets_of(alloc, text)?),
            "unread" => unread(alloc, &octets_of(alloc, text)?),
            "take" => take(alloc, text),
            "transliterate" => transliterate(alloc, &octets_of(alloc, text)?),
            "long" => transliterate_long(alloc, text),
            _ => line_of(alloc, "no case has this word"),
        }
    }
}
