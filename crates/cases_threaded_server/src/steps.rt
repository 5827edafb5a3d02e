//! What a case does, step by step.
use crate::client::{Client, Peer};
use std::alloc::{AllocError, Global};
use std::collections::VecDeque;

/// Where a stream stands still.
#[derive(Clone, Copy, Drop)]
pub enum Stand {
    Nowhere,
    /// Its sink, when it is first written an EVENT.
    Sink,
    /// Its source, with what it has read behind the four octets of the handshake.
    Source,
    /// Who lets go of it, first of all the realm's actor or the session's writer: until the source of the client of this place, which goes on
    /// then, is read again.
    End(usize),
}

/// What accepting gives next.
#[derive(Drop)]
pub enum Cue {
    /// A stream whose client sends these octets.
    Comes { octets: Vec<u8>, stand: Stand },
    /// It fails.
    Fails,
    /// To accept no more.
    Stops,
}

/// PINGs that a client sends.
#[derive(Clone, Copy, Drop)]
pub struct Flood {
    /// How many it sends.
    pub times: u64,
    /// How many octets each one carries.
    pub octets: usize,
    /// How many of them its stream takes, sooner or later.
    pub least: u64,
}

/// What is done with a client.
#[derive(Drop)]
pub enum Deed {
    /// It reads until it got so many octets.
    Hears(u64),
    /// It sends these octets.
    Says(Vec<u8>),
    /// It sends so many PINGs, and reads nothing, until its stream takes no more.
    Floods(Flood),
    /// It closes its stream.
    Leaves,
    /// It is waited until its sink stands still.
    Stands,
    /// What stands still goes on.
    Frees,
}

/// What comes next.
#[derive(Drop)]
pub enum Step {
    Accepts(Cue),
    /// Something is done with the client of this place, from 0.
    Does(usize, Deed),
}

fn copy_of(alloc: Global, octets: &[u8]) -> Result<Vec<u8>, AllocError> {
    let mut copy = Vec::with_capacity(alloc, octets.len())?;
    copy.extend_from_slice(octets)?;
    Ok(copy)
}

impl Step {
    /// The same step once more.
    pub fn copy(&self, alloc: Global) -> Result<Step, AllocError> {
        match self {
            Step::Accepts(cue) => Ok(Step::Accepts(cue.copy(alloc)?)),
            Step::Does(place, deed) => Ok(Step::Does(*place, deed.copy(alloc)?)),
        }
    }
}

impl Cue {
    fn copy(&self, alloc: Global) -> Result<Cue, AllocError> {
        match self {
            Cue::Comes { octets, stand } => Ok(Cue::Comes {
                octets: copy_of(alloc, octets)?,
                stand: *stand,
            }),
            Cue::Fails => Ok(Cue::Fails),
            Cue::Stops => Ok(Cue::Stops),
        }
    }
}

impl Deed {
    fn copy(&self, alloc: Global) -> Result<Deed, AllocError> {
        match self {
            Deed::Hears(count) => Ok(Deed::Hears(*count)),
            Deed::Says(octets) => Ok(Deed::Says(copy_of(alloc, octets)?)),
            Deed::Floods(flood) => Ok(Deed::Floods(*flood)),
            Deed::Leaves => Ok(Deed::Leaves),
            Deed::Stands => Ok(Deed::Stands),
            Deed::Frees => Ok(Deed::Frees),
        }
    }
}

/// What is still to come, and the clients that came.
#[derive(Drop)]
pub struct Play<T> {
    pub steps: VecDeque<Step>,
    pub clients: Vec<Client<T>>,
}

impl<T: Peer> Play<T> {
    /// What accepting gives next. All that comes before it is done.
    pub fn next(&mut self) -> Cue {
        for _ in 0..u64::MAX {
            match self.steps.pop_front() {
                None => return Cue::Stops,
                Some(Step::Accepts(cue)) => return cue,
                Some(Step::Does(place, deed)) => self.act(place, deed),
            }
        }
        Cue::Stops
    }

    fn act(&mut self, place: usize, deed: Deed) {
        let Some(client) = self.clients.get_mut(place) else {
            return;
        };
        let _ = match deed {
            Deed::Hears(count) => client.hear(count),
            Deed::Says(octets) => client.say(&octets),
            Deed::Floods(flood) => client.flood(flood),
            Deed::Leaves => client.leave(),
            Deed::Stands => client.wait_for_sink(),
            Deed::Frees => client.free(),
        };
    }
}
