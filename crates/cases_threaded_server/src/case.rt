//! One case.
use crate::client::{Client, Peer};
use crate::loopback::Loopback;
use crate::script::Script;
use crate::seating::{give_back, seat};
use crate::steps::{Cue, Deed, Flood, Stand, Step};
use crate::told::{tell, tell_back, tell_last, tell_tally};
use case_items::grant_of;
use case_text::{line_of, number_of, octets_of};
use rawsocket::MessageBound;
use rawsocket::devices::WriteSink;
use std::alloc::Global;
use std::collections::VecDeque;
use std::io::{self, Read};
use std::mem;
use std::net::{Net, TcpListener, TcpStream};
use std::os::unix::net::UnixStream;
use std::random::RandomSource;
use std::sync::Wait;
use std::thread::Threads;
use std::time::{Clock, CpuClock};
use threaded_server::{Acceptor, Config, Ids, Log, Seats, copy_grants, serve_logged, serve_within};
use wamp_ids::Topic;

/// How many items may wait for a session's writer, where a case doesn't say.
const OUTBOX: usize = 256;

/// What one case has.
#[derive(Drop)]
pub struct Case {
    steps: VecDeque<Step>,
    // How many clients have come in these steps.
    came: usize,
    outbox: usize,
    // How long the messages of clients may be, where a case says.
    bound: Option<MessageBound>,
    // Whether it is told how sessions ended, and when streams came back.
    tallies: bool,
    tells_back: bool,
    // How many of the last octets of each client are told, where not all are.
    last: Option<u64>,
    grants: Vec<(String, String)>,
    // What clients may get, by their numbers.
    allowed: Vec<(u64, Vec<u8>)>,
    seats: Seats,
}

impl Case {
    pub fn new(alloc: Global) -> Case {
        Case {
            steps: VecDeque::new(alloc),
            came: 0,
            outbox: OUTBOX,
            bound: None,
            tallies: false,
            tells_back: false,
            last: None,
            grants: Vec::new(alloc),
            allowed: Vec::new(alloc),
            seats: Seats::new(),
        }
    }

    fn config(&self, alloc: Global) -> io::Result<Config> {
        let mut realms = Vec::new(alloc);
        for name in ["r.one", "r.two"] {
            if let Ok(realm) = Topic::read(alloc, name) {
                realms.push(realm)?;
            }
        }
        Ok(Config {
            realms,
            grants: copy_grants(alloc, &self.grants)?,
            outbox: self.outbox,
            ids: Ids::Count,
        })
    }

    /// Answers a line that serves nothing.
    pub fn take(&mut self, alloc: Global, line: &str) -> io::Result<String> {
        let (word, rest) = line.split_once(' ').unwrap_or((line, ""));
        let number = number_of(rest);
        let (_, after) = rest.split_once(' ').unwrap_or((rest, ""));
        match word {
            "#" => {
                *self = Case::new(alloc);
                return line_of(alloc, line);
            }
            "outbox" => self.outbox = number as usize,
            "within" => self.bound = bound_of(number),
            "grant" => self.grants.push(grant_of(alloc, rest)?)?,
            "last" => self.last = Some(number),
            "tally" => self.tallies = true,
            "early" => self.tells_back = true,
            "may" => self.allowed.push((number, octets_of(alloc, after)?))?,
            "client" => self.come(alloc, rest, Stand::Nowhere)?,
            "standing" => self.come(alloc, rest, Stand::Sink)?,
            "late" => self.come(alloc, rest, Stand::Source)?,
            "holding" => self.come(alloc, after, Stand::End(place_of(number)))?,
            "clients" => self.come_often(alloc, number)?,
            "guests" => self.pass_by(alloc, number, after)?,
            "fails" => self.fail(number)?,
            "hears" => self.act(number, Deed::Hears(number_of(after)))?,
            "ends" => self.act(number, Deed::Hears(u64::MAX))?,
            "says" => self.act(number, Deed::Says(octets_of(alloc, after)?))?,
            "floods" => self.act(number, Deed::Floods(flood_of(after)))?,
            "leaves" => self.act(number, Deed::Leaves)?,
            "stands" => self.act(number, Deed::Stands)?,
            "frees" => self.act(number, Deed::Frees)?,
            "take" | "fill" => return seat(alloc, &mut self.seats, word),
            "back" => give_back(&mut self.seats, rest),
            _ => return line_of(alloc, "no case has this word"),
        }
        Ok(String::new(alloc))
    }

    fn come(&mut self, alloc: Global, text: &str, stand: Stand) -> io::Result<()> {
        let octets = octets_of(alloc, text)?;
        self.came = self.came.wrapping_add(1);
        self.steps
            .push_back(Step::Accepts(Cue::Comes { octets, stand }))?;
        Ok(())
    }

    fn come_often(&mut self, alloc: Global, count: u64) -> io::Result<()> {
        for _ in 0..count {
            self.come(alloc, "", Stand::Nowhere)?;
        }
        Ok(())
    }

    // Clients, each of which comes once the one before it has left.
    fn pass_by(&mut self, alloc: Global, count: u64, text: &str) -> io::Result<()> {
        for _ in 0..count {
            self.come(alloc, text, Stand::Nowhere)?;
            self.act(self.came as u64, Deed::Hears(u64::MAX))?;
        }
        Ok(())
    }

    fn fail(&mut self, count: u64) -> io::Result<()> {
        for _ in 0..count {
            self.steps.push_back(Step::Accepts(Cue::Fails))?;
        }
        Ok(())
    }

    fn act(&mut self, client: u64, deed: Deed) -> io::Result<()> {
        self.steps.push_back(Step::Does(place_of(client), deed))?;
        Ok(())
    }

    /// Serves the clients over pairs of connected sockets.
    pub fn serve<
        R: Threads + Wait + Clock + CpuClock + RandomSource + Net + Drop + Copy + Send + 'static,
    >(&mut self, rt: R, alloc: Global) -> io::Result<String> {
        let config = self.config(alloc)?;
        let mut script = Script::new(rt, alloc, self.take_steps(alloc));
        let mut told = self.run(rt, alloc, &mut script, &config, None)?;
        if self.tallies {
            tell_tally(&mut told, script.tally)?;
        }
        if self.tells_back {
            tell_back(&mut told, script.tally)?;
        }
        self.tell(alloc, &mut told, &mut script.pairs.play.clients)?;
        Ok(told)
    }

    /// Does what [`Case::serve`] does with a log, and tells that in place of what the clients got: its lines, sorted.
    pub fn serve_logged<
        R: Threads + Wait + Clock + CpuClock + RandomSource + Net + Drop + Copy + Send + 'static,
    >(&mut self, rt: R, alloc: Global) -> io::Result<String> {
        let config = self.config(alloc)?;
        let mut script = Script::new(rt, alloc, self.take_steps(alloc));
        let (near, mut far) = UnixStream::pair(&rt)?;
        let (log, _) = Log::start(rt, alloc, WriteSink::new(near))?;
        let mut told = self.run(rt, alloc, &mut script, &config, Some(log))?;
        let mut lines = String::new(alloc);
        let _ = far.read_to_string(&mut lines)?;
        told.push_str(sorted(alloc, lines.as_str())?.as_str())?;
        Ok(told)
    }

    /// Does so many times what [`Case::serve`] does once. Where it is told the same each time it is told once.
    pub fn serve_often<
        R: Threads + Wait + Clock + CpuClock + RandomSource + Net + Drop + Copy + Send + 'static,
    >(&mut self, rt: R, alloc: Global, times: u64) -> io::Result<String> {
        let steps = self.take_steps(alloc);
        let mut first = None;
        for time in 0..times {
            self.steps = copies_of(alloc, &steps)?;
            let told = self.serve(rt, alloc)?;
            match &first {
                None => first = Some(told),
                Some(first) if *first == told => {}
                Some(_) => return Ok(format!(in alloc; "but after {time} times:\n{told}")?),
            }
        }
        let first = first.unwrap_or(String::new(alloc));
        Ok(format!(in alloc; "{times} times:\n{first}")?)
    }

    /// Serves the clients over TCP.
    pub fn serve_tcp<
        R: Threads
            + Wait
            + RandomSource
            + Net<Stream = TcpStream, Listener = TcpListener>
            + Clock
            + CpuClock
            + Drop
            + Copy
            + Send
            + 'static,
    >(&mut self, rt: R, alloc: Global) -> io::Result<String> {
        let config = self.config(alloc)?;
        let mut loopback = Loopback::new(rt, alloc, self.take_steps(alloc))?;
        let mut told = self.run(rt, alloc, &mut loopback, &config, None)?;
        self.tell(alloc, &mut told, &mut loopback.sockets.play.clients)?;
        Ok(told)
    }

    // How serving ended.
    fn run<
        R: Threads + Wait + Clock + CpuClock + RandomSource + Copy + Send + 'static,
        A: Acceptor,
    >(
        &self,
        rt: R,
        alloc: Global,
        acceptor: &mut A,
        config: &Config,
        log: Option<Log>,
    ) -> io::Result<String> {
        if config.realms.len() == 0 || config.outbox == 0 || config.outbox > 65_536 {
            return line_of(alloc, "nothing can be served");
        }
        let served = match self.bound {
            None => serve_logged(rt, alloc, acceptor, config, log),
            Some(bound) => serve_within(rt, alloc, acceptor, config, bound, log),
        };
        match served {
            Ok(()) => line_of(alloc, "ended"),
            Err(fault) => Ok(format!(in alloc; "{fault}\n")?),
        }
    }

    fn take_steps(&mut self, alloc: Global) -> VecDeque<Step> {
        mem::replace(&mut self.steps, VecDeque::new(alloc))
    }

    fn tell<T: Peer>(
        &self,
        alloc: Global,
        told: &mut String,
        clients: &mut [Client<T>],
    ) -> io::Result<()> {
        match self.last {
            None => tell(told, clients, &self.allowed),
            Some(count) => tell_last(alloc, told, clients, count as usize),
        }
    }
}

// The PINGs that three numbers name.
fn flood_of(text: &str) -> Flood {
    let (times, rest) = text.split_once(' ').unwrap_or((text, ""));
    let (octets, least) = rest.split_once(' ').unwrap_or((rest, ""));
    Flood {
        times: number_of(times),
        octets: number_of(octets) as usize,
        least: number_of(least),
    }
}

// The place of a client, from 0, by its number, from 1.
fn place_of(client: u64) -> usize {
    client.saturating_sub(1) as usize
}

fn copies_of(alloc: Global, steps: &VecDeque<Step>) -> io::Result<VecDeque<Step>> {
    let mut copies = VecDeque::new(alloc);
    for step in steps {
        copies.push_back(step.copy(alloc)?)?;
    }
    Ok(copies)
}

// A line of the log up to what differs from run to run: how many connections there were, what a session did, and when it was told.
fn steady(line: &str) -> &str {
    let told = match line.split_once(" connections=") {
        Some((front, _)) => front,
        None => line,
    };
    match told.split_once(" at=") {
        Some((front, _)) => front,
        None => told,
    }
}

// The same lines, sorted, without what differs from run to run.
fn sorted(alloc: Global, text: &str) -> io::Result<String> {
    let mut lines: Vec<&str> = Vec::new(alloc);
    for line in text.lines() {
        lines.push(steady(line))?;
    }
    lines.sort()?;
    let mut all = String::new(alloc);
    for line in &lines {
        all.push_str(line)?;
        all.push('\n')?;
    }
    Ok(all)
}

// The bound of so many octets.
fn bound_of(octets: u64) -> Option<MessageBound> {
    match u32::try_from(octets) {
        Ok(octets) => MessageBound::of_octets(octets),
        Err(_) => None,
    }
}
