//! Streams over TCP.
ghost use Rattle.std.specs.Prelude.{◌≡◌, ◌++◌, ◌∷◌, [], IfOk};
ghost use Rattle.ghost_state.specs.GhostList.{items_of as shown};
ghost use Rattle.threaded_server.specs.Named.{AreNamed};

use crate::acceptor::{Accepted, Acceptor, Parts};
use crate::account::Account;
use crate::answer::Answer;
use broker_threads::{Closed, StreamFate};
use ghost_state::GhostCount;
use rawsocket::devices::{ReadSource, WriteSink};
use realm_inbox::{GhostList, Shut};
use std::alloc::{AllocError, Global};
use std::io::{self, Read, Write};
use std::net::{Shutdown, TcpListener, TcpStream};
use std::snapshot::Snapshot;
use std::sync::Arc;
use std::thread;
use std::time::{Clock, Duration};

/// How many milliseconds are waited after accepting failed, for each failure in a row.
const PAUSE: u64 = 20;

/// The most milliseconds that are waited after accepting failed.
const MOST_PAUSE: u64 = 250;

/// One holder of a stream: all of them share one descriptor, which is closed with the last of them.
#[derive(Drop)]
pub struct TcpHandle {
    stream: Arc<TcpStream>,
}

impl TcpHandle {
    fn another(&self) -> Result<TcpHandle, AllocError> {
        Ok(TcpHandle {
            stream: Arc::try_clone(&self.stream)?,
        })
    }
}

impl Shut for TcpHandle {
    fn shut(&self) {
        let _ = self.stream.shutdown(Shutdown::Both);
    }

    fn twin(&self) -> Option<TcpHandle> {
        self.another().ok()
    }
}

impl Read for TcpHandle {
    fn read(&mut self, buf: &mut [u8]) -> io::Result<usize> {
        let mut stream = &*self.stream;
        stream.read(buf)
    }
}

impl Write for TcpHandle {
    fn write(&mut self, buf: &[u8]) -> io::Result<usize> {
        let mut stream = &*self.stream;
        stream.write(buf)
    }

    fn flush(&mut self) -> io::Result<()> {
        Ok(())
    }
}

/// Accepts over TCP. It never says to stop.
///
/// After a failure it sleeps for 20 milliseconds for each failure that there was in a row, but for 250 at most. So a few failures cost
/// little time, and E26 comes after some 23 seconds of failures at the least: a table of descriptors that is full has as long to get
/// room. A descriptor is closed when its connection is over ([`serve_on`](crate::serve_on)), also while nothing is accepted.
///
/// Each stream has a name of its own, by which contracts tell it from the others.
#[derive(Drop)]
pub struct TcpAcceptor<R: Clock + Drop> {
    listener: TcpListener,
    clock: R,
    failure: Option<io::Error>,
    // These take no bytes.
    answers: GhostList<Answer>,
    account: Account<ReadSource<TcpHandle>, WriteSink<TcpHandle>>,
    made: GhostCount,
    pub ghost named: { AreNamed (shown account.lent) made (λ h. h.0.name.value)
        (λ h. h.1.name.value) },
}

impl<R: Clock + Drop> TcpAcceptor<R> {
    /// Accepts on a listener that is bound.
    pub fn new(listener: TcpListener, clock: R) -> TcpAcceptor<R> {
        TcpAcceptor {
            listener,
            clock,
            failure: None,
            answers: GhostList::new(),
            account: Account::new(),
            made: GhostCount::new(),
        }
    }

    /// Why accepting failed the last time that it did, also where it has given streams since. None where it never failed.
    pub fn last_failure(&self) -> Option<&io::Error> {
        self.failure.as_ref()
    }
}

// The parts of a stream, which share it, under this name.
fn parts_of(
    alloc: Global,
    stream: TcpStream,
    name: &GhostCount,
) -> Result<Parts<ReadSource<TcpHandle>, WriteSink<TcpHandle>, TcpHandle>, AllocError>
    ensures read { IfOk result (λ parts. parts.source.name.value ≡ name.now) }
    ensures written { IfOk result (λ parts. parts.sink.name.value ≡ name.now) }
{
    let shut = TcpHandle {
        stream: Arc::new(alloc, stream)?,
    };
    Ok(Parts {
        source: ReadSource::named(shut.another()?, Snapshot::of(name)),
        sink: WriteSink::named(shut.another()?, Snapshot::of(name)),
        shut,
    })
}

impl<R: Clock + Drop> Acceptor for TcpAcceptor<R> {
    ghost use Rattle.ghost_state.specs.GhostList.{items_of};
    ghost use Rattle.threaded_server.specs.Lending.{asked_of, lending_of, returned, with_returned};

    ghost answers = { λ a. items_of a.answers };

    ghost lending = { λ a. lending_of a.account };

    ghost asked = { λ a. asked_of a.account };

    type Stream = TcpStream;

    type Source = ReadSource<TcpHandle>;

    type Sink = WriteSink<TcpHandle>;

    type Shut = TcpHandle;

    fn accept(&mut self) -> Accepted<TcpStream> {
        self.account.asks();
        let accepted = match self.listener.accept() {
            Ok((stream, _)) => Accepted::Stream(stream),
            Err(failure) => {
                self.failure = Some(failure);
                Accepted::Failed
            }
        };
        self.answers.add(Snapshot::of(&accepted.answer()));
        accepted
    }

    // Small writes go out at once: what waits for more octets is held back before the stream.
    fn split(
        &mut self,
        alloc: Global,
        stream: TcpStream,
    ) -> Result<Parts<ReadSource<TcpHandle>, WriteSink<TcpHandle>, TcpHandle>, AllocError> {
        let _ = stream.set_nodelay(true);
        match parts_of(alloc, stream, &self.made) {
            Ok(parts) => {
                self.made.tick();
                Ok(self.account.lend(parts))
            }
            Err(refused) => {
                self.account.refuse();
                Err(refused)
            }
        }
    }

    fn take_back(
        &mut self,
        source: Closed<ReadSource<TcpHandle>>,
        sink: Closed<WriteSink<TcpHandle>>,
        fate: StreamFate,
    )
        ensures answers { items_of self.new.answers ≡ items_of self.old.answers }
        ensures lending { lending_of self.new.account ≡ with_returned (lending_of self.old.account)
            (returned source.last.value sink.last.value fate) }
        ensures asked { asked_of self.new.account ≡ asked_of self.old.account }
    {
        self.account.take_back(source, sink, fate);
    }

    fn peer(&self, alloc: Global, stream: &TcpStream) -> Option<String> {
        match stream.peer_addr() {
            Ok(address) => format!(in alloc; "{address}").ok(),
            Err(_) => Some(String::new(alloc)),
        }
    }

    fn failure(&self, alloc: Global) -> Option<String> {
        match &self.failure {
            Some(failure) => format!(in alloc; "{failure}").ok(),
            None => Some(String::new(alloc)),
        }
    }

    fn pause(&mut self, failures: u32) {
        let pause = MOST_PAUSE.min(PAUSE * failures as u64);
        thread::sleep(&self.clock, Duration::from_millis(pause));
    }
}
