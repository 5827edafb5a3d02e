//! Frames:
//!
//! - `cut OCTETS`: the frames of a stream, and its fault; then, that they are the same however it is
//!   cut: whole, at each octet, at each pair of octets, octet by octet; and that they are the same where
//!   each is read in place, however it is cut.
//! - `feed OCTETS`: the frames that a further piece of the case's stream completes, and its fault.
//! - `in-place OCTETS`: the same, where each frame that lies whole in the piece is read in place.
//! - `taking N`: the case's stream begins anew, and a payload may have so many octets at most, and not 2^20.
//! - `bounded N`: the same by the bound of N octets; or `no bound` where that is none.
//! - `counted N`: the same for N pieces of one octet each: 0 to 250, and again.
//! - `held`: the fault that the stream is at.
//! - `frame KIND OCTETS`, `zeros N`: writes a frame behind what the case has written: these octets,
//!   or a message of so many zeros.
//! - `written`: what the case has written.
//!
//! Of more than 300 octets their number, the first 252 and the last 4 are printed.
use crate::handshakes::bound_of;
use crate::in_place::read_in_place;
use case_text::{line_of, number_of, octets_of, spell};
use rawsocket::{Deframer, Fault, Fed, Frame, Kind, write_frame};
use std::alloc::Global;
use std::io;

/// A stream that is read, and one that is written.
#[derive(Drop)]
pub struct Stream {
    deframer: Deframer,
    out: Vec<u8>,
}

impl Stream {
    pub fn new(alloc: Global) -> Stream {
        Stream {
            deframer: Deframer::new(alloc),
            out: Vec::new(alloc),
        }
    }

    /// Begins anew; a payload may have so many octets at most.
    pub fn taking(&mut self, alloc: Global, count: &str) -> io::Result<String> {
        self.deframer = Deframer::taking(alloc, number_of(count) as usize);
        Ok(String::new(alloc))
    }

    /// Begins anew; a payload has to be within the bound of so many octets.
    pub fn bounded(&mut self, alloc: Global, count: &str) -> io::Result<String> {
        let Some(bound) = bound_of(number_of(count)) else {
            return line_of(alloc, "no bound");
        };
        self.deframer = Deframer::within(alloc, bound);
        Ok(String::new(alloc))
    }

    /// Reads a further piece.
    pub fn feed(&mut self, alloc: Global, octets: &[u8]) -> io::Result<String> {
        let mut text = String::new(alloc);
        feed(alloc, &mut self.deframer, &mut text, octets)?;
        Ok(text)
    }

    /// Reads a further piece in place.
    pub fn in_place(&mut self, alloc: Global, octets: &[u8]) -> io::Result<String> {
        let mut text = String::new(alloc);
        read_in_place(alloc, &mut self.deframer, &mut text, octets)?;
        Ok(text)
    }

    /// Reads so many pieces of one octet.
    pub fn counted(&mut self, alloc: Global, count: &str) -> io::Result<String> {
        let mut text = String::new(alloc);
        for place in 0..number_of(count) {
            let octet = (place % 251) as u8;
            feed(alloc, &mut self.deframer, &mut text, &[octet])?;
        }
        Ok(text)
    }

    /// The fault that the stream is at.
    pub fn held(&self, alloc: Global) -> io::Result<String> {
        match self.deframer.fault() {
            None => line_of(alloc, "no fault"),
            Some(fault) => Ok(format!(in alloc; "fault {fault}\n")?),
        }
    }

    /// Writes a frame of the words `KIND OCTETS`.
    pub fn frame(&mut self, alloc: Global, words: &str) -> io::Result<String> {
        let Some((kind, payload)) = words.split_once(' ') else {
            return line_of(alloc, "no kind");
        };
        let payload = octets_of(alloc, payload)?;
        self.write(alloc, kind_of(kind), &payload)
    }

    /// Writes a message of so many zeros.
    pub fn zeros(&mut self, alloc: Global, count: &str) -> io::Result<String> {
        let payload = vec![in alloc; 0u8; number_of(count) as usize]?;
        self.write(alloc, Kind::Message, &payload)
    }

    fn write(&mut self, alloc: Global, kind: Kind, payload: &[u8]) -> io::Result<String> {
        match write_frame(alloc, kind, payload, &mut self.out) {
            Ok(()) => Ok(String::new(alloc)),
            Err(fault) => Ok(format!(in alloc; "{fault}\n")?),
        }
    }

    /// What was written.
    pub fn written(&self, alloc: Global) -> io::Result<String> {
        let mut text = String::new(alloc);
        summarize(&mut text, &self.out)?;
        text.push('\n')?;
        Ok(text)
    }
}

/// The kind of this name.
pub fn kind_of(name: &str) -> Kind {
    match name {
        "ping" => Kind::Ping,
        "pong" => Kind::Pong,
        _ => Kind::Message,
    }
}

fn name_of(kind: Kind) -> &'static str {
    match kind {
        Kind::Message => "message",
        Kind::Ping => "ping",
        Kind::Pong => "pong",
    }
}

/// What a piece gives; once more where memory was refused, which changes nothing.
fn fed(alloc: Global, deframer: &mut Deframer, piece: &[u8]) -> Result<Fed, Fault> {
    match deframer.feed(alloc, piece) {
        Err(Fault::NoMemory) => deframer.feed(alloc, piece),
        fed => fed,
    }
}

/// Adds the frames that a piece completes, and the fault.
fn feed(alloc: Global, deframer: &mut Deframer, text: &mut String, piece: &[u8]) -> io::Result<()> {
    match fed(alloc, deframer, piece) {
        Ok(fed) => {
            frames(text, &fed.frames)?;
            tell_fault(text, fed.fault)
        }
        Err(fault) => Ok(writeln!(text, "{fault}")?),
    }
}

fn frames(text: &mut String, frames: &[Frame]) -> io::Result<()> {
    for frame in frames {
        tell_frame(text, frame.kind, &frame.payload)?;
    }
    Ok(())
}

/// Adds a frame.
pub fn tell_frame(text: &mut String, kind: Kind, payload: &[u8]) -> io::Result<()> {
    text.push_str(name_of(kind))?;
    text.push(' ')?;
    summarize(text, payload)?;
    Ok(text.push('\n')?)
}

/// Adds the fault, if there is one.
pub fn tell_fault(text: &mut String, fault: Option<Fault>) -> io::Result<()> {
    match fault {
        None => Ok(()),
        Some(fault) => Ok(writeln!(text, "fault {fault}")?),
    }
}

fn summarize(text: &mut String, octets: &[u8]) -> io::Result<()> {
    let count = octets.len();
    if count <= 300 {
        return spell(text, octets);
    }
    let first = &octets[..count.min(252)];
    let last = &octets[count.saturating_sub(4)..];
    write!(text, "{count} octets: ")?;
    spell(text, first)?;
    text.push_str(" .. ")?;
    spell(text, last)
}

/// How a piece is read.
#[derive(Clone, Copy, Drop)]
enum Way {
    Fed,
    InPlace,
}

/// The frames of a stream, its fault, and whether both are the same however it is cut and read.
pub fn cut_everywhere(alloc: Global, octets: &[u8]) -> io::Result<String> {
    let mut whole = told(alloc, Way::Fed, &[octets])?;
    let alike = is_cut_alike(alloc, Way::Fed, octets, whole.as_str())?;
    let in_place = is_cut_alike(alloc, Way::InPlace, octets, whole.as_str())?;
    whole.push_str(likeness(alike))?;
    if !in_place {
        whole.push_str("but not in place\n")?;
    }
    Ok(whole)
}

fn likeness(alike: bool) -> &'static str {
    if alike {
        "however cut\n"
    } else {
        "but not however cut\n"
    }
}

fn is_cut_alike(alloc: Global, way: Way, octets: &[u8], whole: &str) -> io::Result<bool> {
    for then in 0..octets.len() + 1 {
        for at in 0..then + 1 {
            let pieces = cut_at(octets, at, then);
            if told(alloc, way, &pieces)?.as_str() != whole {
                return Ok(false);
            }
        }
    }
    is_alike_by_octets(alloc, way, octets, whole)
}

/// Octets in three pieces.
fn cut_at(octets: &[u8], at: usize, then: usize) -> [&[u8]; 3] {
    let then = then.min(octets.len());
    let at = at.min(then);
    [&octets[..at], &octets[at..then], &octets[then..]]
}

fn is_alike_by_octets(alloc: Global, way: Way, octets: &[u8], whole: &str) -> io::Result<bool> {
    let mut deframer = Deframer::new(alloc);
    let mut text = String::new(alloc);
    for piece in octets.chunks(1) {
        tell(alloc, way, &mut deframer, &mut text, piece)?;
    }
    Ok(text.as_str() == whole)
}

/// The frames of these pieces, and the first fault.
fn told(alloc: Global, way: Way, pieces: &[&[u8]]) -> io::Result<String> {
    let mut deframer = Deframer::new(alloc);
    let mut text = String::new(alloc);
    for piece in pieces {
        tell(alloc, way, &mut deframer, &mut text, piece)?;
    }
    Ok(text)
}

/// Adds the frames that a piece completes, and the fault, where there was none before.
fn tell(
    alloc: Global,
    way: Way,
    deframer: &mut Deframer,
    text: &mut String,
    piece: &[u8],
) -> io::Result<()> {
    if deframer.fault().is_some() {
        return Ok(());
    }
    match way {
        Way::Fed => feed(alloc, deframer, text, piece),
        Way::InPlace => read_in_place(alloc, deframer, text, piece),
    }
}
