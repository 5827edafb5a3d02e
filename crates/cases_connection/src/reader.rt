//! The reader's end of a case.
use crate::acts::{Log, Nowhere};
use crate::client::{Client, Devices, Manner};
use crate::heard::Heard;
use case_devices::{FailsAt, OneByOne};
use connection::{EncodingPoster, InUse, ReadEnd, read_posts};
use rawsocket::Deframer;
use rawsocket::devices::{MemorySource, Source};
use session::{CarriedArgs, Opened};
use std::alloc::{AllocError, Global};
use std::io;
use std::sync::Wait;

/// What a client has sent.
#[derive(Drop)]
pub struct Stream {
    pub early: Vec<u8>,
    pub octets: Vec<u8>,
    pub room: usize,
}

fn opened(alloc: Global, client: Client, early: &[u8]) -> Result<Opened, AllocError> {
    let mut deframer = Deframer::new(alloc);
    let Ok(fed) = deframer.feed(alloc, early) else {
        return Err(AllocError);
    };
    Ok(Opened {
        serializer: client.serializer,
        limit: client.limit,
        realm: 0,
        authid: None,
        deframer,
        early: fed.frames,
    })
}

fn in_words(alloc: Global, end: ReadEnd) -> io::Result<String> {
    let words = match end {
        ReadEnd::Left => "left",
        ReadEnd::Violation(fault) => return Ok(format!(in alloc; "violation {fault}\n")?),
        ReadEnd::Ended => "ended",
        ReadEnd::Device => "device failed",
        ReadEnd::TooManyTurns => "too many turns",
        ReadEnd::NoMemory => "E1 no memory",
        ReadEnd::ActorGone => "nobody receives",
    };
    Ok(format!(in alloc; "{words}\n")?)
}

impl Stream {
    /// Nothing, and room for all acts.
    pub fn new(alloc: Global) -> Stream {
        Stream {
            early: Vec::new(alloc),
            octets: Vec::new(alloc),
            room: usize::MAX,
        }
    }

    /// Adds a message whose topic or pattern has so many letters, between what stands before and behind it.
    pub fn add_long(
        &mut self,
        before: &str,
        letters: usize,
        behind: &str,
    ) -> Result<(), AllocError> {
        let others = before.len().saturating_add(behind.len());
        let Ok(length) = u32::try_from(letters.saturating_add(others)) else {
            return Err(AllocError);
        };
        self.octets.extend_from_slice(&length.to_be_bytes())?;
        self.octets.extend_from_slice(before.as_bytes())?;
        for _ in 0..letters {
            self.octets.push(b'a')?;
        }
        self.octets.extend_from_slice(behind.as_bytes())
    }

    // Posts what the octets say.
    fn run<R: Wait + Copy>(
        &self,
        rt: &R,
        alloc: Global,
        in_use: &InUse,
        client: Client,
        devices: Devices,
    ) -> io::Result<(Log, ReadEnd)> {
        let log = Log::new(alloc, self.room)?;
        let asleep = log.asleep()?;
        let poster = EncodingPoster {
            alloc,
            in_use,
            own: client.serializer,
            using: None,
            poster: log,
        };
        let source = MemorySource::new(self.octets.as_slice().to_vec(alloc)?);
        let opened = opened(alloc, client, self.early.as_slice())?;
        match devices.manner {
            Manner::Slow => {
                let mut source = FailsAt::new(OneByOne::new(source), devices.failing);
                Ok(post_all(rt, alloc, &mut source, opened, poster))
            }
            Manner::Heard => {
                let mut source = Heard {
                    rt: *rt,
                    device: OneByOne::new(source),
                    asleep,
                };
                Ok(post_all(rt, alloc, &mut source, opened, poster))
            }
            _ => {
                let mut source = FailsAt::new(source, devices.failing);
                Ok(post_all(rt, alloc, &mut source, opened, poster))
            }
        }
    }

    /// Posts what the octets say, and tells it.
    pub fn read<R: Wait + Copy>(
        &self,
        rt: &R,
        alloc: Global,
        in_use: &InUse,
        client: Client,
        devices: Devices,
    ) -> io::Result<String> {
        let (log, end) = self.run(rt, alloc, in_use, client, devices)?;
        let posted = log.told(alloc)?;
        let end = in_words(alloc, end)?;
        Ok(format!(in alloc; "{posted}{end}")?)
    }

    /// Posts what the octets say, and tells for how many octets the heaviest post counted.
    pub fn weigh<R: Wait + Copy>(
        &self,
        rt: &R,
        alloc: Global,
        in_use: &InUse,
        client: Client,
        devices: Devices,
    ) -> io::Result<String> {
        match self.run(rt, alloc, in_use, client, devices)? {
            (_, ReadEnd::NoMemory) => Err(AllocError)?,
            (log, _) => {
                let heaviest = log.heaviest();
                Ok(format!(in alloc; "the heaviest weighs {heaviest}\n")?)
            }
        }
    }

    /// The arguments of what the octets publish, as they are posted.
    pub fn published<R: Wait + Copy>(
        &self,
        rt: &R,
        alloc: Global,
        in_use: &InUse,
        client: Client,
        devices: Devices,
    ) -> io::Result<Vec<CarriedArgs>> {
        match self.run(rt, alloc, in_use, client, devices)? {
            (_, ReadEnd::NoMemory) => Err(AllocError)?,
            (log, _) => Ok(log.into_published(alloc)?),
        }
    }

    /// The same for each call that fails: how many acts are posted, and how it ends.
    pub fn read_failing<R: Wait + Copy>(
        &self,
        rt: &R,
        alloc: Global,
        in_use: &InUse,
        client: Client,
        devices: Devices,
    ) -> io::Result<String> {
        let mut told = String::new(alloc);
        for call in 0..u64::MAX {
            let failing = Devices {
                failing: call,
                ..devices
            };
            let (log, end) = self.run(rt, alloc, in_use, client, failing)?;
            let count = log.count();
            write!(told, "{call}: {count} posted, ")?;
            told.push_str(in_words(alloc, end)?.as_str())?;
            if end != ReadEnd::Device {
                break;
            }
        }
        Ok(told)
    }
}

fn post_all<R: Wait, I: Source>(
    rt: &R,
    alloc: Global,
    source: &mut I,
    opened: Opened,
    poster: EncodingPoster<'_, Log>,
) -> (Log, ReadEnd) {
    let mut poster = poster;
    let end = read_posts::<R, Nowhere, I, EncodingPoster<'_, Log>>(
        rt,
        alloc,
        source,
        opened,
        &mut poster,
    );
    (poster.poster, end)
}
