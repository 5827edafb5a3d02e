//! An acceptor that follows a script, over TCP.
ghost use Rattle.std.specs.Prelude.{◌≡◌, ◌++◌, ◌∷◌, []};

use crate::client::Client;
use crate::steps::{Cue, Play, Step};
use rawsocket::devices::{ReadSource, WriteSink};
use realm_inbox::GhostList;
use std::alloc::{AllocError, Global};
use std::collections::VecDeque;
use std::io;
use std::net::{Net, SocketAddr, TcpListener, TcpStream};
use std::snapshot::Snapshot;
use std::time::Clock;
use threaded_server::{
    Accepted, Acceptor, Account, Answer, Closed, Parts, StreamFate, TcpAcceptor, TcpHandle,
};

/// What is still to be accepted, and the clients of all streams, which connect to the acceptor inside.
#[derive(Drop)]
pub struct Sockets<R: Clock + Drop> {
    net: R,
    alloc: Global,
    address: SocketAddr,
    tcp: TcpAcceptor<R>,
    pub play: Play<TcpStream>,
}

/// An acceptor that follows a script.
#[derive(Drop)]
pub struct Loopback<R: Clock + Drop> {
    pub sockets: Sockets<R>,
    // These take no bytes.
    answers: GhostList<Answer>,
    account: Account<ReadSource<TcpHandle>, WriteSink<TcpHandle>>,
}

impl<R: Net<Stream = TcpStream, Listener = TcpListener> + Clock + Copy + Drop> Loopback<R> {
    /// Nobody has come yet.
    pub fn new(net: R, alloc: Global, steps: VecDeque<Step>) -> io::Result<Loopback<R>> {
        let listener = TcpListener::bind(&net, "127.0.0.1:0")?;
        let sockets = Sockets {
            net,
            alloc,
            address: listener.local_addr()?,
            tcp: TcpAcceptor::new(listener, net),
            play: Play {
                steps,
                clients: Vec::new(alloc),
            },
        };
        Ok(Loopback {
            sockets,
            answers: GhostList::new(),
            account: Account::new(),
        })
    }
}

impl<R: Net<Stream = TcpStream, Listener = TcpListener> + Clock + Copy + Drop> Sockets<R> {
    fn accept(&mut self) -> Accepted<TcpStream> {
        match self.play.next() {
            Cue::Stops => Accepted::Stop,
            Cue::Fails => Accepted::Failed,
            Cue::Comes { octets, stand: _ } => match self.connect(&octets) {
                Ok(()) => self.tcp.accept(),
                Err(_) => Accepted::Failed,
            },
        }
    }

    // A new client that sends these octets.
    fn connect(&mut self, octets: &[u8]) -> io::Result<()> {
        let stream = TcpStream::connect(&self.net, self.address)?;
        let mut client = Client::new(self.alloc, stream, None);
        client.say(octets)?;
        self.play.clients.push(client)?;
        Ok(())
    }
}

impl<R: Net<Stream = TcpStream, Listener = TcpListener> + Clock + Copy + Drop> Acceptor
    for Loopback<R> {
    ghost use Rattle.ghost_state.specs.GhostList.{items_of};
    ghost use Rattle.threaded_server.specs.Lending.{asked_of, lending_of, returned, with_returned};

    type Stream = TcpStream;

    type Source = ReadSource<TcpHandle>;

    type Sink = WriteSink<TcpHandle>;

    type Shut = TcpHandle;

    ghost answers = { λ l. items_of l.answers };

    ghost lending = { λ l. lending_of l.account };

    ghost asked = { λ l. asked_of l.account };

    fn accept(&mut self) -> Accepted<TcpStream> {
        self.account.asks();
        let accepted = self.sockets.accept();
        self.answers.add(Snapshot::of(&accepted.answer()));
        accepted
    }

    fn split(
        &mut self,
        alloc: Global,
        stream: TcpStream,
    ) -> Result<Parts<ReadSource<TcpHandle>, WriteSink<TcpHandle>, TcpHandle>, AllocError> {
        match self.sockets.tcp.split(alloc, stream) {
            Ok(parts) => Ok(self.account.lend(parts)),
            Err(refused) => {
                self.account.refuse();
                Err(refused)
            }
        }
    }

    fn take_back(
        &mut self,
        source: Closed<ReadSource<TcpHandle>>,
        sink: Closed<WriteSink<TcpHandle>>,
        fate: StreamFate,
    )
        ensures answers { items_of self.new.answers ≡ items_of self.old.answers }
        ensures lending { lending_of self.new.account ≡ with_returned (lending_of self.old.account)
            (returned source.last.value sink.last.value fate) }
        ensures asked { asked_of self.new.account ≡ asked_of self.old.account }
    {
        self.account.take_back(source, sink, fate);
    }

    fn pause(&mut self, failures: u32) {
        self.sockets.tcp.pause(failures);
    }
}
