//! Connections of a subscriber over TCP.
ghost use Rattle.std.specs.Prelude.{◌≡◌, OnOk, Some};
ghost use Rattle.rawsocket.specs.Steps.{told_by};
ghost use Rattle.client_commands.specs.Faults.{WriteFailuresTold, output_told};
ghost use Rattle.client_commands.specs.Notes.{noting};
ghost use Rattle.client_commands.specs.Reconnecting.{PrintsOnce, stage};

use crate::away::Away;
use crate::connecting::{connect, limit_of};
use crate::due_stream::{DueStream, begin, end};
use crate::failure::Failure;
use client_commands::{
    Arrival, Contact, Dialer, Fault, Listener, SubscribeCommand, Timing, subscribe_once,
};
use rawsocket::devices::{ReadSource, Sink, WriteSink};
use std::alloc::Global;
use std::cell::Cell;
use std::net::{Net, TcpStream};
use std::time::{Clock, Duration, Instant};
use std::{io, thread};

/// Connections to a broker, one after another.
#[derive(Drop)]
pub struct TcpDialer<'a, R: Net<Stream = TcpStream> + Clock, E: Sink + Drop> {
    rt: &'a R,
    contact: &'a Contact,
    away: Away<E>,
    /// Why there is no connection.
    unreachable: Option<io::Error>,
    /// Whether the last connection ended since an answer came too late.
    is_late: bool,
}

impl<'a, R: Net<Stream = TcpStream> + Clock, E: Sink + Drop> TcpDialer<'a, R, E> {
    /// Connections to this broker. What happens to them is told to `errors`.
    pub fn new(rt: &'a R, alloc: Global, contact: &'a Contact, errors: E) -> TcpDialer<'a, R, E> {
        TcpDialer {
            rt,
            contact,
            away: Away::new(alloc, errors),
            unreachable: None,
            is_late: false,
        }
    }

    /// Why a command ends that ended by this fault.
    pub fn failure(&self, alloc: Global, fault: Fault) -> Failure {
        match (&fault, &self.unreachable) {
            (Fault::Unreachable, Some(error)) => {
                Failure::to_connect(alloc, self.contact.host.as_str(), self.contact.port, error)
            }
            _ => Failure::of_client(alloc, fault, self.contact, self.is_late),
        }
    }
}

impl<R: Net<Stream = TcpStream> + Clock, E: Sink + Drop> Dialer for TcpDialer<'_, R, E> {
    fn subscribe<P: Sink, N: Sink>(
        &mut self,
        alloc: Global,
        command: &SubscribeCommand,
        listener: &mut Listener,
        output: &mut P,
        notes: &mut N,
    ) -> Result<(), Fault> {
        self.is_late = false;
        let stream = match connect(self.rt, self.contact) {
            Ok(stream) => stream,
            Err(error) => {
                self.unreachable = Some(error);
                listener.miss();
                return Err(Fault::Unreachable);
            }
        };
        let is_late = Cell::new(false);
        let ran = listen_over(
            self.rt,
            alloc,
            &stream,
            &is_late,
            &mut self.away,
            command,
            listener,
            output,
            notes,
        );
        self.is_late = is_late.get();
        ran
    }

    fn wait(&mut self, alloc: Global, seconds: u32, fault: Fault) {
        let failure = self.failure(alloc, fault);
        self.away.begin(self.rt, &failure, seconds);
        thread::sleep(self.rt, Duration::from_secs(seconds as u64));
    }
}

/// Subscribes over a stream, and tells whether an answer came too late.
fn listen_over<R: Clock, E: Sink + Drop, P: Sink, N: Sink>(
    rt: &R,
    alloc: Global,
    stream: &TcpStream,
    is_late: &Cell<bool>,
    away: &mut Away<E>,
    command: &SubscribeCommand,
    listener: &mut Listener,
    output: &mut P,
    notes: &mut N,
) -> Result<(), Fault>
    ensures prints { PrintsOnce command.now
        (stage (P.seen output.old).taken (noting (N.seen notes.old)) listener.old.left)
        (stage (P.seen output.new).taken (noting (N.seen notes.new)) listener.new.left) }
    ensures done { OnOk result (listener.new.left ≡ Some 0) }
    ensures lines { WriteFailuresTold (P.seen output.old) (P.seen output.new)
        (told_by output_told result) }
{
    let limit = limit_of(&command.contact);
    let due = Cell::new(None);
    begin(rt, stream, limit, &due);
    let mut source = ReadSource::new(DueStream::new(rt, stream, &due, is_late));
    let mut sink = WriteSink::new(DueStream::new(rt, stream, &due, is_late));
    let mut timing = ListenerTiming {
        clock: rt,
        stream,
        limit,
        due: &due,
        away,
    };
    subscribe_once(
        alloc,
        command,
        listener,
        &mut source,
        &mut sink,
        output,
        notes,
        &mut timing,
    )
}

/// The time that a subscriber takes over a connection.
#[derive(Drop)]
struct ListenerTiming<'a, R: Clock, E: Sink + Drop> {
    clock: &'a R,
    stream: &'a TcpStream,
    limit: Duration,
    due: &'a Cell<Option<Instant>>,
    away: &'a mut Away<E>,
}

impl<R: Clock, E: Sink + Drop> Timing for ListenerTiming<'_, R, E> {
    fn awaits(&mut self) {}

    fn rest(&mut self) {
        thread::sleep(self.clock, Duration::from_millis(1));
    }

    fn expects(&mut self, is_due: bool) {
        if is_due {
            begin(self.clock, self.stream, self.limit, self.due);
            return;
        }
        end(self.stream, self.due);
        self.away.end(self.clock);
    }

    fn waits(&mut self, _is_held: bool) -> Arrival {
        Arrival::Broker
    }
}
