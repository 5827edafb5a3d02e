//! From a line to its answer.
use crate::connections::Connections;
use crate::faults::faults;
use crate::timings::{Coming, Told};
use crate::told::Outcome;
use crate::values::value;
use case_devices::{FailsAt, OneByOne};
use case_text::{Table, is_refused, line_of, number_of, octets_of};
use client_commands::{
    Arguments, Arrival, Contact, Fault, LineForm, Listener, PublishCommand, PublishWishes,
    Serializer, SubscribeCommand, SubscribeWishes, publish, resubscribe, subscribe, value_of,
    whole_input,
};
use message_tree::{Content, Text, Tree};
use rawsocket::devices::{MemorySource, Sink, Source, WriteSink};
use rawsocket::{Kind, write_frame};
use std::alloc::Global;
use std::collections::VecDeque;
use std::io;
use wamp_ids::Policy;

/// Room for all that a command writes, so that its sinks fail where a call is to fail, and nowhere else.
pub const ROOM: usize = 65536;

/// Which call of a device fails, from 0.
#[derive(Clone, Copy, Drop)]
pub struct Failing {
    pub read: u64,
    pub write: u64,
    input: u64,
    output: u64,
    notes: u64,
}

/// No call fails.
pub const NONE: Failing = Failing {
    read: u64::MAX,
    write: u64::MAX,
    input: u64::MAX,
    output: u64::MAX,
    notes: u64::MAX,
};

impl Failing {
    /// The same, but this call of a device fails.
    fn with(mut self, device: &str, call: u64) -> Failing {
        match device {
            "read" => self.read = call,
            "write" => self.write = call,
            "input" => self.input = call,
            "notes" => self.notes = call,
            _ => self.output = call,
        }
        self
    }
}

/// What the lines of a case have said so far.
#[derive(Drop)]
pub struct Case {
    realm: String,
    authid: Option<String>,
    serializer: Serializer,
    policy: Policy,
    get_retained: bool,
    count: Option<u64>,
    acknowledge: bool,
    retain: bool,
    roles: Vec<String>,
    topics: Vec<String>,
    words: Vec<String>,
    kwargs: Option<String>,
    is_lines: bool,
    is_file: bool,
    input: Vec<u8>,
    /// What the broker sends over each connection before the last one; nothing where that can't be made.
    connections: Vec<Option<Vec<u8>>>,
    octets: Vec<u8>,
    is_slow: bool,
    is_typed: bool,
    is_plain: bool,
    is_timed: bool,
    coming: Vec<Coming>,
    failing: Failing,
}

impl Case {
    pub fn new(alloc: Global) -> Case {
        Case {
            realm: String::new(alloc),
            authid: None,
            serializer: Serializer::Json,
            policy: Policy::Exact,
            get_retained: false,
            count: None,
            acknowledge: false,
            retain: false,
            roles: Vec::new(alloc),
            topics: Vec::new(alloc),
            words: Vec::new(alloc),
            kwargs: None,
            is_lines: false,
            is_file: false,
            input: Vec::new(alloc),
            connections: Vec::new(alloc),
            octets: Vec::new(alloc),
            is_slow: false,
            is_typed: false,
            is_plain: false,
            is_timed: false,
            coming: Vec::new(alloc),
            failing: NONE,
        }
    }
}

impl Table for Case {
    fn take(&mut self, alloc: Global, line: &str) -> io::Result<String> {
        match line.split_once(' ') {
            Some(("#", _)) => {
                *self = Case::new(alloc);
                line_of(alloc, line)
            }
            Some(("value", word)) => value(alloc, word),
            Some(("message", text)) => self.add_frame(alloc, Kind::Message, text),
            Some(("ping", text)) => self.add_frame(alloc, Kind::Ping, text),
            Some(("pong", text)) => self.add_frame(alloc, Kind::Pong, text),
            Some(("sweep", words)) => self.sweep(alloc, words),
            Some((word, text)) => {
                self.set(alloc, word, text)?;
                Ok(String::new(alloc))
            }
            None => self.take_word(alloc, line),
        }
    }
}

impl Case {
    /// The broker sends a frame of this kind.
    fn add_frame(&mut self, alloc: Global, kind: Kind, text: &str) -> io::Result<String> {
        let payload = octets_of(alloc, text)?;
        match write_frame(alloc, kind, &payload, &mut self.octets) {
            Ok(()) => Ok(String::new(alloc)),
            Err(fault) => Ok(format!(in alloc; "{fault}\n")?),
        }
    }

    fn set(&mut self, alloc: Global, word: &str, text: &str) -> io::Result<()> {
        match word {
            "realm" => self.realm = String::from_str(alloc, text)?,
            "authid" => self.authid = Some(String::from_str(alloc, text)?),
            "match" => self.policy = policy_of(text),
            "count" => self.count = Some(number_of(text)),
            "eligible" => self.roles.push(String::from_str(alloc, text)?)?,
            "topic" => self.topics.push(String::from_str(alloc, text)?)?,
            "word" => self.words.push(String::from_str(alloc, text)?)?,
            "kwargs" => self.kwargs = Some(String::from_str(alloc, text)?),
            "first" => self.octets.truncate(number_of(text) as usize),
            _ => self.set_streams(alloc, word, text)?,
        }
        Ok(())
    }

    fn set_streams(&mut self, alloc: Global, word: &str, text: &str) -> io::Result<()> {
        match word {
            "octets" => self.octets.extend_from_slice(&octets_of(alloc, text)?)?,
            "repeat" => self.repeat(text)?,
            "comes" => self.add_coming(text)?,
            "input" => match text.split_once(' ') {
                Some((call, "fails")) => {
                    self.failing = self.failing.with(word, number_of(call));
                }
                _ => self.input.extend_from_slice(&octets_of(alloc, text)?)?,
            },
            _ => self.failing = self.failing.with(word, number_of(text)),
        }
        Ok(())
    }

    /// Adds so many octets to the input, as in `101 x`.
    fn repeat(&mut self, text: &str) -> io::Result<()> {
        let octet = text.as_bytes().last().copied().unwrap_or(b' ');
        for _ in 0..number_of(text) {
            self.input.push(octet)?;
        }
        Ok(())
    }

    /// What comes while the command waits, so many times, as in `2 input`.
    fn add_coming(&mut self, text: &str) -> io::Result<()> {
        let (count, word) = text.split_once(' ').unwrap_or((text, ""));
        let coming = match word {
            "broker" => Coming::From(Arrival::Broker),
            "held" => Coming::Held,
            _ => Coming::From(Arrival::Input),
        };
        let count = number_of(count);
        // All of them or none: a line is taken once more where memory was refused.
        self.coming.reserve(count as usize)?;
        for _ in 0..count {
            self.coming.push(coming)?;
        }
        Ok(())
    }

    fn take_word(&mut self, alloc: Global, word: &str) -> io::Result<String> {
        match word {
            "msgpack" => self.serializer = Serializer::MsgPack,
            "get_retained" => self.get_retained = true,
            "acknowledge" => self.acknowledge = true,
            "retain" => self.retain = true,
            "lines" => self.is_lines = true,
            "file" => self.is_file = true,
            "slowly" => self.is_slow = true,
            "typed" => self.is_typed = true,
            "plain" => self.is_plain = true,
            "timed" => self.is_timed = true,
            "next" => self.end_connection(alloc)?,
            "unreachable" => self.connections.push(None)?,
            "faults" => return faults(alloc),
            "subscribe" | "publish" | "resubscribe" => {
                return self.run(alloc, word, self.failing)?.in_words(alloc);
            }
            _ => return line_of(alloc, "no case has this word"),
        }
        Ok(String::new(alloc))
    }

    /// What the broker sends from here on goes over the next connection.
    fn end_connection(&mut self, alloc: Global) -> io::Result<()> {
        let octets = self.octets.as_slice().to_vec(alloc)?;
        self.octets.truncate(0);
        self.connections.push(Some(octets))?;
        Ok(())
    }

    /// Runs a command for each call of a device that fails, the first one first, until none does.
    fn sweep(&self, alloc: Global, words: &str) -> io::Result<String> {
        let Some((command, device)) = words.split_once(' ') else {
            return line_of(alloc, "a device is missing");
        };
        let whole = self.run(alloc, command, NONE)?;
        if is_refused(whole.end.as_str()) {
            return line_of(alloc, whole.end.as_str());
        }
        let last = whole.counted(alloc, &whole)?;
        let mut told = String::new(alloc);
        for call in 0..u64::MAX {
            let outcome = self.run(alloc, command, NONE.with(device, call))?;
            let line = outcome.counted(alloc, &whole)?;
            if !told.as_str().ends_with(line.as_str()) {
                told.push_str(line.as_str())?;
            }
            if line.as_str() == last.as_str() {
                break;
            }
        }
        Ok(told)
    }

    /// Runs a command where these calls fail.
    fn run(&self, alloc: Global, command: &str, failing: Failing) -> io::Result<Outcome> {
        match command {
            "resubscribe" => self.run_again(alloc, failing),
            _ if self.is_slow => self.run_slowly(alloc, command, failing),
            _ => self.run_at_once(alloc, command, failing),
        }
    }

    /// Runs `resubscribe` over one connection after another.
    fn run_again(&self, alloc: Global, failing: Failing) -> io::Result<Outcome> {
        let output = WriteSink::new(Vec::with_capacity(alloc, ROOM)?);
        let notes = WriteSink::new(Vec::with_capacity(alloc, ROOM)?);
        let mut output = FailsAt::new(output, failing.output);
        let mut notes = FailsAt::new(notes, failing.notes);
        let mut connections = Connections::new(alloc, self.is_timed, failing);
        for octets in &self.connections {
            match octets {
                Some(octets) => connections.add(Some(octets.as_slice().to_vec(alloc)?))?,
                None => connections.add(None)?,
            }
        }
        connections.add(Some(self.octets.as_slice().to_vec(alloc)?))?;
        let command = self.subscribing(alloc)?;
        let ran = resubscribe(alloc, &command, &mut connections, &mut output, &mut notes);
        let (written, told) = connections.into_told()?;
        Ok(Outcome {
            written,
            told,
            noted: notes.device.writer().as_slice().to_vec(alloc)?,
            printed: output.device.writer().as_slice().to_vec(alloc)?,
            end: end_of(alloc, ran)?,
        })
    }

    /// Runs a command over a stream of one octet at a time.
    fn run_slowly(&self, alloc: Global, command: &str, failing: Failing) -> io::Result<Outcome> {
        let source = MemorySource::new(self.octets.as_slice().to_vec(alloc)?);
        let sink = WriteSink::new(Vec::with_capacity(alloc, ROOM)?);
        let mut source = FailsAt::new(OneByOne::new(source), failing.read);
        let mut sink = FailsAt::new(OneByOne::new(sink), failing.write);
        let mut outcome = self.run_over(alloc, command, failing, &mut source, &mut sink)?;
        let written = sink.device.device.writer().as_slice();
        outcome.written.extend_from_slice(written)?;
        Ok(outcome)
    }

    /// Runs a command over a stream that gives and takes all at once.
    fn run_at_once(&self, alloc: Global, command: &str, failing: Failing) -> io::Result<Outcome> {
        let source = MemorySource::new(self.octets.as_slice().to_vec(alloc)?);
        let sink = WriteSink::new(Vec::with_capacity(alloc, ROOM)?);
        let mut source = FailsAt::new(source, failing.read);
        let mut sink = FailsAt::new(sink, failing.write);
        let mut outcome = self.run_over(alloc, command, failing, &mut source, &mut sink)?;
        let written = sink.device.writer().as_slice();
        outcome.written.extend_from_slice(written)?;
        Ok(outcome)
    }

    /// Runs a command over a stream; what is written to it is left out.
    fn run_over<I: Source, O: Sink>(
        &self,
        alloc: Global,
        command: &str,
        failing: Failing,
        source: &mut I,
        sink: &mut O,
    ) -> io::Result<Outcome> {
        let output = WriteSink::new(Vec::with_capacity(alloc, ROOM)?);
        let notes = WriteSink::new(Vec::with_capacity(alloc, ROOM)?);
        let mut output = FailsAt::new(output, failing.output);
        let mut notes = FailsAt::new(notes, failing.notes);
        let coming = self.coming.as_slice().to_vec(alloc)?;
        let mut timing = Told::with(alloc, self.is_timed, VecDeque::from_vec(coming));
        let end = match command {
            "subscribe" => {
                let command = self.subscribing(alloc)?;
                let mut listener = Listener::new(command.count);
                let ran = subscribe(
                    alloc,
                    &command,
                    &mut listener,
                    source,
                    sink,
                    &mut output,
                    &mut notes,
                    &mut timing,
                );
                end_of(alloc, ran)?
            }
            _ => self.run_publish(alloc, failing, source, sink, &mut timing)?,
        };
        Ok(Outcome {
            written: Vec::new(alloc),
            told: timing.into_line()?,
            noted: notes.device.writer().as_slice().to_vec(alloc)?,
            printed: output.device.writer().as_slice().to_vec(alloc)?,
            end,
        })
    }

    /// Publishes from an input that comes at once, or one octet at a time.
    fn run_publish<I: Source, O: Sink>(
        &self,
        alloc: Global,
        failing: Failing,
        source: &mut I,
        sink: &mut O,
        timing: &mut Told,
    ) -> io::Result<String> {
        let input = MemorySource::new(self.input.as_slice().to_vec(alloc)?);
        if self.is_typed {
            let mut input = FailsAt::new(OneByOne::new(input), failing.input);
            return self.publish_from(alloc, source, sink, &mut input, timing);
        }
        let mut input = FailsAt::new(input, failing.input);
        self.publish_from(alloc, source, sink, &mut input, timing)
    }

    /// Publishes, and tells what came last. A file is read whole before.
    fn publish_from<I: Source, O: Sink, J: Source>(
        &self,
        alloc: Global,
        source: &mut I,
        sink: &mut O,
        input: &mut J,
        timing: &mut Told,
    ) -> io::Result<String> {
        let mut command = self.publishing(alloc)?;
        if self.is_file {
            command.arguments = match whole_input(alloc, input) {
                Ok(arguments) => arguments,
                Err(fault) => return Ok(format!(in alloc; "{fault}")?),
            };
        }
        end_of(alloc, publish(alloc, &command, source, sink, input, timing))
    }

    fn contact(&self, alloc: Global) -> io::Result<Contact> {
        let authid = match &self.authid {
            None => None,
            Some(authid) => Some(Text::of(alloc, authid.as_str())?),
        };
        Ok(Contact {
            host: String::from_str(alloc, "localhost")?,
            port: 9000,
            serializer: self.serializer,
            realm: Text::of(alloc, self.realm.as_str())?,
            authid,
            timeout: 10,
        })
    }

    fn subscribing(&self, alloc: Global) -> io::Result<SubscribeCommand> {
        let wishes = SubscribeWishes {
            policy: self.policy,
            get_retained: self.get_retained,
        };
        Ok(SubscribeCommand {
            contact: self.contact(alloc)?,
            wishes,
            count: self.count,
            form: if self.is_plain {
                LineForm::Plain
            } else {
                LineForm::Json
            },
            reconnect: true,
            topics: texts(alloc, &self.topics)?,
        })
    }

    fn publishing(&self, alloc: Global) -> io::Result<PublishCommand> {
        let mut wishes = PublishWishes::none();
        wishes.acknowledge = self.acknowledge;
        wishes.retain = self.retain;
        if !self.roles.is_empty() {
            wishes.eligible.authroles = Some(texts(alloc, &self.roles)?);
        }
        let topic = match self.topics.first() {
            Some(topic) => Text::of(alloc, topic.as_str())?,
            None => Text::of(alloc, "")?,
        };
        let kwargs = match &self.kwargs {
            None => None,
            Some(json) => Some(Content::of(value_of(alloc, json.as_str())?)),
        };
        Ok(PublishCommand {
            contact: self.contact(alloc)?,
            wishes,
            topic,
            arguments: self.arguments(alloc)?,
            kwargs,
        })
    }

    fn arguments(&self, alloc: Global) -> io::Result<Arguments> {
        if self.is_lines {
            return Ok(Arguments::Lines);
        }
        let mut values = Vec::new(alloc);
        for word in &self.words {
            values.push(value_of(alloc, word.as_str())?)?;
        }
        Ok(Arguments::Words(Content::of(Tree::List(values))))
    }
}

/// What came last.
fn end_of(alloc: Global, ran: Result<(), Fault>) -> io::Result<String> {
    match ran {
        Ok(()) => Ok(String::from_str(alloc, "ended well")?),
        Err(fault) => Ok(format!(in alloc; "{fault}")?),
    }
}

fn texts(alloc: Global, of: &Vec<String>) -> io::Result<Vec<Text>> {
    let mut texts = Vec::new(alloc);
    for text in of {
        texts.push(Text::of(alloc, text.as_str())?)?;
    }
    Ok(texts)
}

fn policy_of(text: &str) -> Policy {
    match text {
        "prefix" => Policy::Prefix,
        "wildcard" => Policy::Wildcard,
        _ => Policy::Exact,
    }
}
