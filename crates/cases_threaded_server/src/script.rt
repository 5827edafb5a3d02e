//! An acceptor that follows a script, over pairs of connected sockets.
ghost use Rattle.std.specs.Prelude.{◌≡◌, ◌++◌, ◌∷◌, []};

use crate::client::Client;
use crate::steps::{Cue, Play, Stand, Step};
use crate::stream::{End, Gates, Hold};
use crate::tally::Tally;
use rawsocket::devices::{ReadSource, WriteSink};
use realm_inbox::GhostList;
use std::alloc::{AllocError, Global};
use std::collections::VecDeque;
use std::io;
use std::net::Net;
use std::os::unix::net::UnixStream;
use std::snapshot::Snapshot;
use std::sync::Arc;
use threaded_server::{Accepted, Acceptor, Account, Answer, Closed, Parts, StreamFate};

/// What is still to be accepted, and the clients of all streams.
#[derive(Drop)]
pub struct Pairs<R: Net + Drop> {
    net: R,
    alloc: Global,
    pub play: Play<UnixStream>,
}

/// An acceptor that follows a script.
#[derive(Drop)]
pub struct Script<R: Net + Drop> {
    pub pairs: Pairs<R>,
    pub tally: Tally,
    // These take no bytes.
    answers: GhostList<Answer>,
    account: Account<ReadSource<End>, WriteSink<End>>,
}

impl<R: Net + Drop> Script<R> {
    /// Nobody has come yet.
    pub fn new(net: R, alloc: Global, steps: VecDeque<Step>) -> Script<R> {
        let play = Play {
            steps,
            clients: Vec::new(alloc),
        };
        Script {
            pairs: Pairs { net, alloc, play },
            tally: Tally::new(),
            answers: GhostList::new(),
            account: Account::new(),
        }
    }
}

impl<R: Net + Drop> Pairs<R> {
    fn accept(&mut self) -> Accepted<End> {
        match self.play.next() {
            Cue::Stops => Accepted::Stop,
            Cue::Fails => Accepted::Failed,
            Cue::Comes { octets, stand } => match self.connect(&octets, stand) {
                Ok(end) => Accepted::Stream(end),
                Err(_) => Accepted::Failed,
            },
        }
    }

    // The broker's end of a new stream, whose client sends these octets.
    fn connect(&mut self, octets: &[u8], stand: Stand) -> io::Result<End> {
        let (ours, theirs) = UnixStream::pair(&self.net)?;
        let (gates, at_client) = self.gates_of(stand)?;
        let mut client = Client::new(self.alloc, theirs, at_client);
        client.say(octets)?;
        self.play.clients.push(client)?;
        Ok(End::new(self.alloc, ours, gates)?)
    }

    // The gates of a stream, and what its client has of them.
    fn gates_of(&mut self, stand: Stand) -> io::Result<(Gates, Option<UnixStream>)> {
        let mut gates = Gates::none();
        match stand {
            Stand::Nowhere => return Ok((gates, None)),
            Stand::End(place) => {
                gates.end = self.hold_of(place)?;
                return Ok((gates, None));
            }
            Stand::Sink | Stand::Source => {}
        }
        let (at_stream, at_client) = UnixStream::pair(&self.net)?;
        let at_stream = Some(Arc::new(self.alloc, at_stream)?);
        match stand {
            Stand::Source => gates.source = at_stream,
            _ => gates.sink = at_stream,
        }
        Ok((gates, Some(at_client)))
    }

    // What the client of this place has of a gate, if it has any. It hasn't then.
    fn hold_of(&mut self, place: usize) -> io::Result<Option<Hold>> {
        let Some(client) = self.play.clients.get_mut(place) else {
            return Ok(None);
        };
        match client.take_gate() {
            Some(gate) => Ok(Some(Hold {
                gate: Arc::new(self.alloc, gate)?,
            })),
            None => Ok(None),
        }
    }
}

// The parts of a stream, which share it.
fn parts_of(stream: End) -> Result<Parts<ReadSource<End>, WriteSink<End>, End>, AllocError> {
    Ok(Parts {
        source: ReadSource::new(stream.another()?),
        sink: WriteSink::new(stream.another()?),
        shut: stream,
    })
}

impl<R: Net + Drop> Acceptor for Script<R> {
    ghost use Rattle.ghost_state.specs.GhostList.{items_of};
    ghost use Rattle.threaded_server.specs.Lending.{asked_of, lending_of, returned, with_returned};

    type Stream = End;

    type Source = ReadSource<End>;

    type Sink = WriteSink<End>;

    type Shut = End;

    ghost answers = { λ s. items_of s.answers };

    ghost lending = { λ s. lending_of s.account };

    ghost asked = { λ s. asked_of s.account };

    fn accept(&mut self) -> Accepted<End> {
        self.tally.asks();
        self.account.asks();
        let accepted = self.pairs.accept();
        self.answers.add(Snapshot::of(&accepted.answer()));
        accepted
    }

    fn split(
        &mut self,
        _alloc: Global,
        stream: End,
    ) -> Result<Parts<ReadSource<End>, WriteSink<End>, End>, AllocError> {
        match parts_of(stream) {
            Ok(parts) => Ok(self.account.lend(parts)),
            Err(refused) => {
                self.account.refuse();
                Err(refused)
            }
        }
    }

    fn take_back(
        &mut self,
        source: Closed<ReadSource<End>>,
        sink: Closed<WriteSink<End>>,
        fate: StreamFate,
    )
        ensures answers { items_of self.new.answers ≡ items_of self.old.answers }
        ensures lending { lending_of self.new.account ≡ with_returned (lending_of self.old.account)
            (returned source.last.value sink.last.value fate) }
        ensures asked { asked_of self.new.account ≡ asked_of self.old.account }
    {
        self.tally.count(fate);
        self.account.take_back(source, sink, fate);
    }

    fn pause(&mut self, _failures: u32) {}
}
