//! The writer's end of a case.
use crate::client::{Client, Devices, Manner};
use crate::fed::Fed;
use crate::items::{event_of, item_of, publication};
use crate::owed::{ListHistory, Owing};
use case_devices::{FailsAt, OneByOne};
use case_text::{line_of, spelled};
use connection::{WriteEnd, write_items};
use message_tree::Shared;
use outbox_queue::Drain;
use rawsocket::devices::{Sink, WriteSink};
use session::{CarriedArgs, Item, Publication};
use std::alloc::{AllocError, Global};
use std::io::{self, BufWriter};
use std::sync::Wait;
use wamp_ids::Id;

/// Room for all that a case writes, so that its device fails where a call is to fail, and nowhere else.
const ROOM: usize = 8192;

/// The subscription and the publication of each EVENT that was forwarded.
const FORWARDED: (u64, u64) = (1, 3);

/// What a connection is owed: first what lines say, then what was forwarded.
#[derive(Drop)]
pub struct Debt {
    pub lines: Vec<String>,
    forwarded: Vec<Shared<Publication>>,
}

/// What a device got, and how it ended.
#[derive(Drop)]
struct Written {
    octets: Vec<u8>,
    end: WriteEnd,
}

impl Debt {
    /// Nothing is owed.
    pub fn new(alloc: Global) -> Debt {
        Debt {
            lines: Vec::new(alloc),
            forwarded: Vec::new(alloc),
        }
    }

    /// An EVENT of these arguments is owed too.
    pub fn forward(&mut self, alloc: Global, args: CarriedArgs) -> io::Result<()> {
        let Ok(id) = Id::new(FORWARDED.1) else {
            return Ok(());
        };
        match publication(alloc, id, args) {
            Some(publication) => Ok(self.forwarded.push(publication)?),
            None => Err(AllocError)?,
        }
    }

    // The items; they fail to be made only where memory is refused.
    fn items(&self, alloc: Global) -> io::Result<Vec<Item>> {
        let mut items = Vec::new(alloc);
        for line in &self.lines {
            match item_of(alloc, line.as_str())? {
                Some(item) => items.push(item)?,
                None => return Err(AllocError)?,
            }
        }
        for publication in &self.forwarded {
            let Ok(subscription) = Id::new(FORWARDED.0) else {
                break;
            };
            items.push(event_of(subscription, publication.twin()?))?;
        }
        Ok(items)
    }

    fn run<R: Wait + Copy>(
        &self,
        rt: &R,
        alloc: Global,
        client: Client,
        devices: Devices,
    ) -> io::Result<Written> {
        let owing = Owing::of(alloc, self.items(alloc)?)?;
        match devices.manner {
            Manner::Whole => to_whole(rt, alloc, client, devices.failing, owing),
            Manner::Slow | Manner::Heard => to_slow(rt, alloc, client, devices.failing, owing),
            Manner::Held => to_held(rt, alloc, client, devices.failing, owing),
            Manner::Fed => to_fed(rt, alloc, client, devices.failing, owing),
        }
    }

    /// Writes all that is owed, and tells what the device got.
    pub fn write<R: Wait + Copy>(
        &self,
        rt: &R,
        alloc: Global,
        client: Client,
        devices: Devices,
    ) -> io::Result<String> {
        let Written { octets, end } = self.run(rt, alloc, client, devices)?;
        let mut told = octets_in_words(alloc, octets.as_slice())?;
        told.push_str(in_words(end))?;
        told.push('\n')?;
        Ok(told)
    }

    /// The same for each call that fails: how many octets the device got, and how it ended.
    pub fn write_failing<R: Wait + Copy>(
        &self,
        rt: &R,
        alloc: Global,
        client: Client,
        devices: Devices,
    ) -> io::Result<String> {
        let mut told = String::new(alloc);
        for call in 0..u64::MAX {
            let failing = Devices {
                failing: call,
                ..devices
            };
            let Written { octets, end } = self.run(rt, alloc, client, failing)?;
            let count = octets.len();
            let words = in_words(end);
            write!(told, "{call}: {count} octets, {words}\n")?;
            if end != WriteEnd::Device {
                break;
            }
        }
        Ok(told)
    }
}

fn in_words(end: WriteEnd) -> &'static str {
    match end {
        WriteEnd::Stopped => "stopped",
        WriteEnd::Full => "outbox full",
        WriteEnd::Lost => "lost",
        WriteEnd::Dropped => "dropped",
        WriteEnd::Device => "device failed",
        WriteEnd::TooLong => "E18 TooLongForClient",
        WriteEnd::NoMemory => "E1 no memory",
        WriteEnd::TooManyTurns => "too many turns",
    }
}

fn octets_in_words(alloc: Global, octets: &[u8]) -> io::Result<String> {
    if octets.is_empty() {
        return line_of(alloc, "wrote nothing");
    }
    let count = octets.len();
    let text = spelled(alloc, octets)?;
    Ok(format!(in alloc; "wrote {count}: {text}\n")?)
}

fn write_to<R: Wait, O: Sink>(
    rt: &R,
    alloc: Global,
    client: Client,
    drain: Drain<Item, ListHistory>,
    sink: &mut O,
) -> WriteEnd {
    let (_, end) = write_items(rt, alloc, drain, sink, client.serializer, client.limit);
    end
}

fn to_whole<R: Wait>(
    rt: &R,
    alloc: Global,
    client: Client,
    failing: u64,
    mut owing: Owing,
) -> io::Result<Written> {
    owing.adder.add_all(rt);
    let room = Vec::with_capacity(alloc, ROOM)?;
    let mut sink = FailsAt::new(WriteSink::new(room), failing);
    let end = write_to(rt, alloc, client, owing.drain, &mut sink);
    let octets = sink.device.writer().as_slice().to_vec(alloc)?;
    Ok(Written { octets, end })
}

fn to_slow<R: Wait>(
    rt: &R,
    alloc: Global,
    client: Client,
    failing: u64,
    mut owing: Owing,
) -> io::Result<Written> {
    owing.adder.add_all(rt);
    let room = Vec::with_capacity(alloc, ROOM)?;
    let mut sink = FailsAt::new(OneByOne::new(WriteSink::new(room)), failing);
    let end = write_to(rt, alloc, client, owing.drain, &mut sink);
    let octets = sink.device.device.writer().as_slice().to_vec(alloc)?;
    Ok(Written { octets, end })
}

fn to_held<R: Wait>(
    rt: &R,
    alloc: Global,
    client: Client,
    failing: u64,
    mut owing: Owing,
) -> io::Result<Written> {
    owing.adder.add_all(rt);
    let room = Vec::with_capacity(alloc, ROOM)?;
    let mut sink = FailsAt::new(WriteSink::new(BufWriter::new(alloc, room)?), failing);
    let end = write_to(rt, alloc, client, owing.drain, &mut sink);
    let octets = sink.device.writer().get_ref().as_slice().to_vec(alloc)?;
    Ok(Written { octets, end })
}

fn to_fed<R: Wait + Copy>(
    rt: &R,
    alloc: Global,
    client: Client,
    failing: u64,
    owing: Owing,
) -> io::Result<Written> {
    let Owing { adder, drain } = owing;
    let room = Vec::with_capacity(alloc, ROOM)?;
    let fed = Fed {
        rt: *rt,
        device: WriteSink::new(BufWriter::new(alloc, room)?),
        adder,
    };
    let mut sink = FailsAt::new(fed, failing);
    let end = write_to(rt, alloc, client, drain, &mut sink);
    let octets = sink
        .device
        .device
        .writer()
        .get_ref()
        .as_slice()
        .to_vec(alloc)?;
    Ok(Written { octets, end })
}
