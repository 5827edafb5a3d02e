//! The commands that are clients of a broker, over TCP.
use crate::connecting::{connect, limit_of};
use crate::dialer::TcpDialer;
use crate::failure::Failure;
use crate::patient_stream::{PatientStream, StreamTiming};
use client_commands::{
    Arguments, Dialer, Listener, PublishCommand, SubscribeCommand, publish, resubscribe,
    whole_input,
};
use rawsocket::devices::{ReadSource, Sink, Turns, WriteSink, send, write_all};
use std::alloc::Global;
use std::cell::Cell;
use std::fs::File;
use std::net::{Net, TcpStream};
use std::os::fd::AsRawFd;
use std::time::Clock;

/// The path that stands for standard input.
const STANDARD_INPUT: &str = "-";

/// Prints the events that are asked for, and tells `notes` which topics are subscribed to. What happens to connections is told to
/// `errors`.
pub fn run_subscribe<R: Net<Stream = TcpStream> + Clock, S: Sink, N: Sink, E: Sink + Drop>(
    rt: &R,
    alloc: Global,
    output: &mut S,
    notes: &mut N,
    errors: E,
    command: &SubscribeCommand,
) -> Result<(), Failure> {
    if let Some(hint) = command.hint() {
        tell(notes, hint);
    }
    let mut dialer = TcpDialer::new(rt, alloc, &command.contact, errors);
    let ran = if command.reconnect {
        resubscribe(alloc, command, &mut dialer, output, notes)
    } else {
        let mut listener = Listener::new(command.count);
        dialer.subscribe(alloc, command, &mut listener, output, notes)
    };
    match ran {
        Ok(()) => Ok(()),
        Err(fault) => Err(dialer.failure(alloc, fault)),
    }
}

/// Publishes what is told, of which lines are read from standard input.
pub fn run_publish<R: Net<Stream = TcpStream> + Clock>(
    host: &HostRuntime,
    rt: &R,
    alloc: Global,
    command: &PublishCommand,
) -> Result<(), Failure> {
    let stream = match connect(rt, &command.contact) {
        Ok(stream) => stream,
        Err(error) => {
            let contact = &command.contact;
            let name = contact.host.as_str();
            return Err(Failure::to_connect(alloc, name, contact.port, &error));
        }
    };
    let is_late = Cell::new(false);
    let mut source = ReadSource::new(PatientStream::new(&stream, &is_late));
    let mut sink = WriteSink::new(PatientStream::new(&stream, &is_late));
    let input = host.stdin();
    let limit = limit_of(&command.contact);
    let mut timing = StreamTiming::new(rt, &stream, input.as_raw_fd(), limit);
    let mut input = ReadSource::new(input);
    match publish(
        alloc,
        command,
        &mut source,
        &mut sink,
        &mut input,
        &mut timing,
    ) {
        Ok(()) => Ok(()),
        Err(fault) => Err(Failure::of_client(alloc, fault, &command.contact, is_late.get())),
    }
}

/// Publishes the octets of a file as one argument. It is read to its end before the broker is connected to.
pub fn run_publish_file<R: Net<Stream = TcpStream> + Clock>(
    host: &HostRuntime,
    rt: &R,
    alloc: Global,
    path: &str,
    mut command: PublishCommand,
) -> Result<(), Failure> {
    command.arguments = octets_at(host, alloc, path)?;
    run_publish(host, rt, alloc, &command)
}

/// All octets of a file, or of standard input where the path is `-`, as one argument.
fn octets_at(host: &HostRuntime, alloc: Global, path: &str) -> Result<Arguments, Failure> {
    if path == STANDARD_INPUT {
        let mut input = ReadSource::new(host.stdin());
        return match whole_input(alloc, &mut input) {
            Ok(arguments) => Ok(arguments),
            Err(fault) => Err(Failure::to_read(alloc, "standard input", fault)),
        };
    }
    let file = match File::open(host, path) {
        Ok(file) => file,
        Err(error) => return Err(Failure::to_open(alloc, path, &error)),
    };
    match whole_input(alloc, &mut ReadSource::new(file)) {
        Ok(arguments) => Ok(arguments),
        Err(fault) => Err(Failure::to_read(alloc, path, fault)),
    }
}

/// Tells something in a line. Where that fails it is passed over, as with other notes.
fn tell<N: Sink>(notes: &mut N, text: &str) {
    let mut turns = Turns::new();
    if write_all(notes, text.as_bytes(), &mut turns).is_ok() {
        let _ = send(notes, b"\n", &mut turns);
    }
}
