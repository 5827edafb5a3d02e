//! The opening of a session over devices.
use case_devices::{FailsAt, OneByOne};
use case_text::{is_refused, spelled};
use rawsocket::devices::{MemorySource, Sink, Source, WriteSink};
use rawsocket::{Deframer, Frame, Kind, MessageBound, Serializer};
use session::{Fault, Opened, open_session, open_session_within};
use std::alloc::Global;
use std::io;
use wamp_ids::Topic;

/// Room for all that an opening writes, so that its sink fails where a call is to fail, and nowhere
/// else.
const ROOM: usize = 4096;

/// What an opening comes to where a read fails, and where a write does.
const READ_FAULT: &str = "fault E16 read fault\n";

const WRITE_FAULT: &str = "fault E17 write fault\n";

/// What an opening wrote, and what came of it.
#[derive(Drop)]
struct Outcome {
    octets: Vec<u8>,
    comes: String,
}

/// What a client sends, and over which devices.
#[derive(Drop)]
pub struct Stream {
    pub realms: Vec<Topic>,
    pub bound: Option<MessageBound>,
    pub octets: Vec<u8>,
    pub behind: Vec<u8>,
    pub is_slow: bool,
    pub failing_read: u64,
    pub failing_write: u64,
}

impl Stream {
    pub fn new(alloc: Global) -> Stream {
        Stream {
            realms: Vec::new(alloc),
            bound: None,
            octets: Vec::new(alloc),
            behind: Vec::new(alloc),
            is_slow: false,
            failing_read: u64::MAX,
            failing_write: u64::MAX,
        }
    }

    /// The realms are those of these names, by spaces.
    pub fn take_realms(&mut self, alloc: Global, names: &str) -> io::Result<String> {
        self.realms = Vec::new(alloc);
        for name in names.split(' ') {
            match Topic::read(alloc, name) {
                Ok(realm) => self.realms.push(realm)?,
                Err(fault) => return Ok(format!(in alloc; "{fault}\n")?),
            }
        }
        Ok(String::new(alloc))
    }

    /// Payloads of the client have to be within the bound of so many octets.
    pub fn take_bound(&mut self, alloc: Global, octets: u64) -> io::Result<String> {
        self.bound = match u32::try_from(octets) {
            Ok(octets) => MessageBound::of_octets(octets),
            Err(_) => None,
        };
        let told = if self.bound.is_none() {
            "no bound\n"
        } else {
            ""
        };
        Ok(String::from_str(alloc, told)?)
    }

    /// Opens a session, and says what is written, and what comes of it.
    pub fn told(&self, alloc: Global) -> io::Result<String> {
        let outcome = self.run(alloc, self.failing_read, self.failing_write)?;
        let text = spelled(alloc, outcome.octets.as_slice())?;
        let comes = outcome.comes.as_str();
        Ok(format!(in alloc; "wrote {text}\n{comes}")?)
    }

    /// The same for each read that fails, the first one first, until none does.
    pub fn told_of_reads(&self, alloc: Global) -> io::Result<String> {
        let whole = self.run(alloc, u64::MAX, u64::MAX)?;
        let mut told = first_of(alloc, &whole)?;
        for call in 0..u64::MAX {
            let outcome = self.run(alloc, call, u64::MAX)?;
            tell(alloc, &mut told, &outcome, &whole)?;
            if outcome.comes.as_str() != READ_FAULT {
                break;
            }
        }
        Ok(told)
    }

    /// The same for each write that fails, and each flush.
    pub fn told_of_writes(&self, alloc: Global) -> io::Result<String> {
        let whole = self.run(alloc, u64::MAX, u64::MAX)?;
        let mut told = first_of(alloc, &whole)?;
        for call in 0..u64::MAX {
            let outcome = self.run(alloc, u64::MAX, call)?;
            tell(alloc, &mut told, &outcome, &whole)?;
            if outcome.comes.as_str() != WRITE_FAULT {
                break;
            }
        }
        Ok(told)
    }

    // Opens a session where these calls fail.
    fn run(&self, alloc: Global, failing_read: u64, failing_write: u64) -> io::Result<Outcome> {
        let source = MemorySource::new(self.octets.as_slice().to_vec(alloc)?);
        let sink = WriteSink::new(Vec::with_capacity(alloc, ROOM)?);
        if self.is_slow {
            let mut source = FailsAt::new(OneByOne::new(source), failing_read);
            let mut sink = FailsAt::new(OneByOne::new(sink), failing_write);
            let comes = self.open(alloc, &mut source, &mut sink)?;
            let octets = sink.device.device.writer().as_slice().to_vec(alloc)?;
            Ok(Outcome { octets, comes })
        } else {
            let mut source = FailsAt::new(source, failing_read);
            let mut sink = FailsAt::new(sink, failing_write);
            let comes = self.open(alloc, &mut source, &mut sink)?;
            let octets = sink.device.writer().as_slice().to_vec(alloc)?;
            Ok(Outcome { octets, comes })
        }
    }

    fn open<I: Source, O: Sink>(
        &self,
        alloc: Global,
        source: &mut I,
        sink: &mut O,
    ) -> io::Result<String> {
        if let Some(bound) = self.bound {
            return self.open_within(alloc, source, sink, bound);
        }
        match open_session(alloc, source, sink, self.realms.as_slice()) {
            Ok(session) => session_in_words(alloc, session, self.behind.as_slice()),
            Err(fault) => fault_line(alloc, fault),
        }
    }

    fn open_within<I: Source, O: Sink>(
        &self,
        alloc: Global,
        source: &mut I,
        sink: &mut O,
        bound: MessageBound,
    ) -> io::Result<String> {
        let realms = self.realms.as_slice();
        match open_session_within(alloc, source, sink, realms, bound, &mut None) {
            Ok(session) => session_in_words(alloc, session, self.behind.as_slice()),
            Err(fault) => fault_line(alloc, fault),
        }
    }
}

fn fault_line(alloc: Global, fault: Fault) -> io::Result<String> {
    Ok(format!(in alloc; "fault {fault}\n")?)
}

// What is told first: nothing, unless memory was refused already.
fn first_of(alloc: Global, whole: &Outcome) -> io::Result<String> {
    if is_refused(whole.comes.as_str()) {
        return Ok(String::from_str(alloc, whole.comes.as_str())?);
    }
    Ok(String::new(alloc))
}

// Adds a line that says how many octets an opening wrote, whether they are others than those of the whole, where no call fails, and what
// came of it; none, if it is the line before.
fn tell(alloc: Global, out: &mut String, outcome: &Outcome, whole: &Outcome) -> io::Result<()> {
    let count = outcome.octets.len();
    let others = others_mark(outcome, whole);
    let comes = outcome.comes.as_str();
    let line = format!(in alloc; "{count} {others}octets, {comes}")?;
    push_new(out, line.as_str())
}

fn others_mark(outcome: &Outcome, whole: &Outcome) -> &'static str {
    let octets = outcome.octets.as_slice();
    if whole.octets.as_slice().starts_with(octets) {
        ""
    } else {
        "other "
    }
}

// Adds a line, unless it is the line before.
fn push_new(out: &mut String, line: &str) -> io::Result<()> {
    if !out.as_str().ends_with(line) {
        out.push_str(line)?;
    }
    Ok(())
}

fn name_of(serializer: Serializer) -> &'static str {
    match serializer {
        Serializer::Json => "json",
        Serializer::MsgPack => "msgpack",
    }
}

/// A session, the frames that it came with, and those that octets behind them give.
fn session_in_words(alloc: Global, session: Opened, behind: &[u8]) -> io::Result<String> {
    let heading = heading_of(alloc, &session)?;
    let early = frames_in_words(alloc, &session.early)?;
    let rest = rest_in_words(alloc, session.deframer, behind)?;
    Ok(format!(in alloc; "{heading}{early}{rest}")?)
}

fn heading_of(alloc: Global, session: &Opened) -> io::Result<String> {
    let name = name_of(session.serializer);
    let authid = authid_of(session);
    let limit = session.limit;
    let realm = session.realm;
    Ok(format!(in alloc; "{name} {limit} {realm} {authid}\n")?)
}

fn authid_of(session: &Opened) -> &str {
    match &session.authid {
        None => "",
        Some(authid) => authid.as_str(),
    }
}

fn frames_in_words(alloc: Global, frames: &[Frame]) -> io::Result<String> {
    let mut words = String::new(alloc);
    for frame in frames {
        words.push_str(frame_in_words(alloc, frame)?.as_str())?;
    }
    Ok(words)
}

fn kind_name(kind: Kind) -> &'static str {
    match kind {
        Kind::Message => "message",
        Kind::Ping => "ping",
        Kind::Pong => "pong",
    }
}

fn frame_in_words(alloc: Global, frame: &Frame) -> io::Result<String> {
    let name = kind_name(frame.kind);
    let payload = spelled(alloc, frame.payload.as_slice())?;
    Ok(format!(in alloc; "{name} {payload}\n")?)
}

fn rest_in_words(alloc: Global, mut deframer: Deframer, octets: &[u8]) -> io::Result<String> {
    match deframer.feed(alloc, octets) {
        Ok(fed) => fed_in_words(alloc, fed.frames.as_slice(), fed.fault),
        Err(fault) => Ok(format!(in alloc; "fault {fault}\n")?),
    }
}

fn fed_in_words(
    alloc: Global,
    frames: &[Frame],
    fault: Option<rawsocket::Fault>,
) -> io::Result<String> {
    let words = frames_in_words(alloc, frames)?;
    match fault {
        None => Ok(words),
        Some(fault) => Ok(format!(in alloc; "{words}stream fault {fault}\n")?),
    }
}
