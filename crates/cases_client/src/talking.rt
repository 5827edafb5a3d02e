//! A link to a broker whose octets are prepared.
use crate::hearing::in_words;
use crate::messages::client_message;
use case_devices::{FailsAt, OneByOne};
use case_text::{is_refused, octets_of, spelled};
use client_session::{ClientMessage, Fault, Link, Serializer};
use rawsocket::devices::{MemorySource, Sink, Source, WriteSink};
use rawsocket::{Kind, write_frame};
use std::alloc::Global;
use std::io;

/// Room for all that a client writes, so that its sink fails where a call is to fail, and nowhere else.
const ROOM: usize = 65536;

/// What comes of a link where a read fails, and where a write does.
const READ_FAULT: &str = "fault E16 read fault\n";

const WRITE_FAULT: &str = "fault E17 write fault\n";

/// What comes of a message that no client says, and of one that memory was refused for.
const NO_SAYING: &str = "no client says this\n";

const NO_MEMORY: &str = "fault E1 no memory\n";

/// What was heard on a link: a line for each message, how many there are, and what came last.
#[derive(Drop)]
struct Talk {
    lines: String,
    count: u64,
    end: String,
}

/// What a client wrote, and what it heard.
#[derive(Drop)]
struct Outcome {
    octets: Vec<u8>,
    talk: Talk,
}

/// What a broker sends and a client says, and over which devices.
#[derive(Drop)]
pub struct Stream {
    pub serializer: Serializer,
    pub octets: Vec<u8>,
    pub sayings: Vec<String>,
    pub is_slow: bool,
    /// Whether the client hears by single looks.
    pub is_looking: bool,
    pub failing_read: u64,
    pub failing_write: u64,
}

impl Stream {
    pub fn new(alloc: Global) -> Stream {
        Stream {
            serializer: Serializer::Json,
            octets: Vec::new(alloc),
            sayings: Vec::new(alloc),
            is_slow: false,
            is_looking: false,
            failing_read: u64::MAX,
            failing_write: u64::MAX,
        }
    }

    /// The broker sends a frame of this kind.
    pub fn add_frame(&mut self, alloc: Global, kind: Kind, text: &str) -> io::Result<String> {
        let payload = octets_of(alloc, text)?;
        match write_frame(alloc, kind, &payload, &mut self.octets) {
            Ok(()) => Ok(String::new(alloc)),
            Err(fault) => Ok(format!(in alloc; "{fault}\n")?),
        }
    }

    /// The client says this, a message in JSON.
    pub fn add_saying(&mut self, alloc: Global, json: &str) -> io::Result<String> {
        self.sayings.push(String::from_str(alloc, json)?)?;
        Ok(String::new(alloc))
    }

    /// Links, says all, hears all, and tells what is written and what comes of it.
    pub fn told(&self, alloc: Global) -> io::Result<String> {
        let outcome = self.run(alloc, self.failing_read, self.failing_write)?;
        let text = spelled(alloc, outcome.octets.as_slice())?;
        let lines = outcome.talk.lines.as_str();
        let end = outcome.talk.end.as_str();
        Ok(format!(in alloc; "wrote {text}\n{lines}{end}")?)
    }

    /// The same for each read that fails, the first one first, until none does.
    pub fn told_of_reads(&self, alloc: Global) -> io::Result<String> {
        let whole = self.run(alloc, u64::MAX, u64::MAX)?;
        let mut told = first_of(alloc, &whole)?;
        for call in 0..u64::MAX {
            let outcome = self.run(alloc, call, u64::MAX)?;
            tell(alloc, &mut told, &outcome, &whole)?;
            if outcome.talk.end.as_str() != READ_FAULT {
                break;
            }
        }
        Ok(told)
    }

    /// The same for each write that fails, and each flush.
    pub fn told_of_writes(&self, alloc: Global) -> io::Result<String> {
        let whole = self.run(alloc, u64::MAX, u64::MAX)?;
        let mut told = first_of(alloc, &whole)?;
        for call in 0..u64::MAX {
            let outcome = self.run(alloc, u64::MAX, call)?;
            tell(alloc, &mut told, &outcome, &whole)?;
            if outcome.talk.end.as_str() != WRITE_FAULT {
                break;
            }
        }
        Ok(told)
    }

    // Links where these calls fail.
    fn run(&self, alloc: Global, failing_read: u64, failing_write: u64) -> io::Result<Outcome> {
        let source = MemorySource::new(self.octets.as_slice().to_vec(alloc)?);
        let sink = WriteSink::new(Vec::with_capacity(alloc, ROOM)?);
        if self.is_slow {
            let mut source = FailsAt::new(OneByOne::new(source), failing_read);
            let mut sink = FailsAt::new(OneByOne::new(sink), failing_write);
            let talk = self.talk(alloc, &mut source, &mut sink)?;
            let octets = sink.device.device.writer().as_slice().to_vec(alloc)?;
            Ok(Outcome { octets, talk })
        } else {
            let mut source = FailsAt::new(source, failing_read);
            let mut sink = FailsAt::new(sink, failing_write);
            let talk = self.talk(alloc, &mut source, &mut sink)?;
            let octets = sink.device.writer().as_slice().to_vec(alloc)?;
            Ok(Outcome { octets, talk })
        }
    }

    fn talk<I: Source, O: Sink>(
        &self,
        alloc: Global,
        source: &mut I,
        sink: &mut O,
    ) -> io::Result<Talk> {
        match Link::connect(alloc, source, sink, self.serializer) {
            Ok(mut link) => match say_all(alloc, &link, sink, &self.sayings)? {
                None if self.is_looking => look_on(alloc, &mut link, source, sink),
                None => hear_all(alloc, &mut link, source, sink),
                Some(end) => ended(alloc, end),
            },
            Err(fault) => ended(alloc, fault_line(alloc, fault)?),
        }
    }
}

// Nothing was heard.
fn ended(alloc: Global, end: String) -> io::Result<Talk> {
    Ok(Talk {
        lines: String::new(alloc),
        count: 0,
        end,
    })
}

// Says all; or why not.
fn say_all<O: Sink>(
    alloc: Global,
    link: &Link,
    sink: &mut O,
    sayings: &Vec<String>,
) -> io::Result<Option<String>> {
    for json in sayings {
        let said = match said_of(alloc, json.as_str()) {
            Ok(said) => said,
            Err(told) => return Ok(Some(String::from_str(alloc, told)?)),
        };
        match link.say(alloc, sink, said) {
            Ok(()) => {}
            Err(fault) => return Ok(Some(fault_line(alloc, fault)?)),
        }
    }
    Ok(None)
}

// What a client's message in JSON says; or a line that tells why it says nothing.
fn said_of(alloc: Global, json: &str) -> Result<ClientMessage, &'static str> {
    match json_codec::decode(alloc, json.as_bytes()) {
        Ok(message) => match client_message(alloc, message) {
            Ok(said) => Ok(said),
            Err(session::Fault::NoMemory) => Err(NO_MEMORY),
            Err(_) => Err(NO_SAYING),
        },
        Err(json_codec::Fault::NoMemory) => Err(NO_MEMORY),
        Err(_) => Err(NO_SAYING),
    }
}

// Hears all, up to what ends it.
fn hear_all<I: Source, O: Sink>(
    alloc: Global,
    link: &mut Link,
    source: &mut I,
    sink: &mut O,
) -> io::Result<Talk> {
    let mut lines = String::new(alloc);
    for count in 0..u64::MAX {
        match link.hear(alloc, source, sink) {
            Ok(heard) => lines.push_str(in_words(alloc, heard)?.as_str())?,
            Err(fault) => {
                let end = fault_line(alloc, fault)?;
                return Ok(Talk { lines, count, end });
            }
        }
    }
    let end = String::new(alloc);
    Ok(Talk {
        lines,
        count: u64::MAX,
        end,
    })
}

// Looks until a fault ends it, and tells of each look.
fn look_on<I: Source, O: Sink>(
    alloc: Global,
    link: &mut Link,
    source: &mut I,
    sink: &mut O,
) -> io::Result<Talk> {
    let mut lines = String::new(alloc);
    let mut count = 0u64;
    for _ in 0..u64::MAX {
        match link.listen(alloc, source, sink) {
            Ok(Some(heard)) => {
                lines.push_str(in_words(alloc, heard)?.as_str())?;
                count = count.saturating_add(1);
            }
            Ok(None) => lines.push_str("nothing yet\n")?,
            Err(fault) => {
                let end = fault_line(alloc, fault)?;
                return Ok(Talk { lines, count, end });
            }
        }
        if !link.is_quiet() {
            lines.push_str("more waits\n")?;
        }
    }
    let end = String::new(alloc);
    Ok(Talk { lines, count, end })
}

fn fault_line(alloc: Global, fault: Fault) -> io::Result<String> {
    Ok(format!(in alloc; "fault {fault}\n")?)
}

// What is told first: nothing, unless memory was refused already.
fn first_of(alloc: Global, whole: &Outcome) -> io::Result<String> {
    let end = whole.talk.end.as_str();
    if is_refused(end) {
        return Ok(String::from_str(alloc, end)?);
    }
    Ok(String::new(alloc))
}

// Adds a line that says how many octets were written, whether they are others than those of the whole, where no call fails, how many
// messages were heard, and what came last; none, if it is the line before.
fn tell(alloc: Global, out: &mut String, outcome: &Outcome, whole: &Outcome) -> io::Result<()> {
    let octets = outcome.octets.as_slice();
    let count = octets.len();
    let others = if whole.octets.as_slice().starts_with(octets) {
        ""
    } else {
        "other "
    };
    let heard = outcome.talk.count;
    let end = outcome.talk.end.as_str();
    let line = format!(in alloc; "{count} {others}octets, {heard} heard, {end}")?;
    if !out.as_str().ends_with(line.as_str()) {
        out.push_str(line.as_str())?;
    }
    Ok(())
}

const FAULTS: [Fault; 15] = [
    Fault::NoMemory,
    Fault::Refused(4),
    Fault::NoBroker,
    Fault::FrameTooLong,
    Fault::FrameType,
    Fault::TooDeep,
    Fault::Malformed,
    Fault::NoBrokerMessage,
    Fault::Unsayable,
    Fault::TooLongForBroker,
    Fault::Ended,
    Fault::ReadFault,
    Fault::WriteFault,
    Fault::TooManyReads,
    Fault::TooManyWrites,
];

/// Each fault of a link as it is printed.
pub fn link_faults(alloc: Global) -> io::Result<String> {
    let mut text = String::new(alloc);
    for fault in FAULTS {
        text.push_str(fault_line(alloc, fault)?.as_str())?;
    }
    Ok(text)
}
