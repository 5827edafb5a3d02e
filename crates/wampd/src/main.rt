//! `wampd`: a publish-subscribe broker for WAMP. The command line asks for help, a replay, a running broker, or a
//! client of one.
//!
//! The commands are those of `broker_server` and `client_commands`. Contracts say that help is printed
//! whole, what is told of a fault, and which exit status it has.
#![tactic(auto)]

ghost use Rattle.std.specs.Prelude.{◌≡◌, ◌≢◌, ◌<◌, ◌≤◌, ◌+◌, ◌++◌, Err, IfErr, OnOk, length};
ghost use Rattle.rawsocket.specs.Devices.{Takes, TakesBeginning};
ghost use Rattle.rawsocket.specs.Steps.{WriteSteps, told_by};
ghost use Rattle.command_line.specs.Commands.{IsServable, IsWritten, fault_line, status_of, write_told};

mod arrivals;
mod away;
mod checking;
mod clients;
mod connecting;
mod dialer;
mod due_stream;
mod failure;
mod keepalive;
mod logging;
mod patient_stream;
mod places;

use broker_server::{
    Command, Config, Fault, Purpose, Serving, TcpAcceptor, read_command, replay, report_failure,
    serve_within, warn_of_exposure,
};
use checking::{check, warn_of_host};
use clients::{run_publish, run_publish_file, run_subscribe};
use failure::Failure;
use logging::{await_end, start_log};
use places::fill_closed;
use rawsocket::devices::{ReadSource, Sink, Turns, WriteSink, send};
use std::alloc::Global;
use std::env;
use std::net::{Net, TcpListener, TcpStream};
use std::process::ExitCode;
use std::random::RandomSource;
use std::sync::Wait;
use std::thread::Threads;
use std::time::{Clock, CpuClock};

fn main(rt: HostRuntime) -> ExitCode {
    let ran = run(&rt, rt);
    let mut errors = WriteSink::new(rt.stderr());
    ExitCode::from(status_after(ran, &mut errors))
}

/// Tells of the failure, if there is one, and gives the exit status.
fn status_after<S: Sink>(ran: Result<(), Failure>, errors: &mut S) -> u8
    ensures fine { OnOk ran (result ≡ 0) }
    ensures fault { IfErr ran (λ failure. result ≡ status_of failure.fault) }
    ensures told { IfErr ran (λ failure. (S.seen errors.new).failures ≡ (S.seen errors.old).failures
        → IsWritten (fault_line failure.fault ++ failure.more.items) (S.seen errors.old).taken
        (S.seen errors.new).taken (S.seen errors.old).calls (S.seen errors.new).calls) }
{
    match ran {
        Ok(()) => 0,
        Err(failure) => report_failure(&failure.fault, &failure.more, errors),
    }
}

/// Runs what the words after the program's name ask for.
fn run<R>(host: &HostRuntime, rt: R) -> Result<(), Failure>
where
    R: Threads
        + Wait
        + RandomSource
        + Clock
        + CpuClock
        + Net<Stream = TcpStream, Listener = TcpListener>
        + Copy
        + Send
        + 'static,
{
    let alloc = host.alloc();
    let words = words_of(host)?;
    let command = match read_command(alloc, &words) {
        Ok(command) => command,
        Err(fault) => return Err(Failure::of_words(alloc, fault, &words)),
    };
    let mut output = WriteSink::new(host.stdout());
    let ran = match command {
        Command::Help(text) => print(&mut output, text.as_str().as_bytes()),
        Command::Version(text) => print(&mut output, text.as_str().as_bytes()),
        Command::Replay(config) => return run_replay(host, alloc, &mut output, &config),
        Command::Serve {
            host: name,
            port,
            config,
            log,
            stats,
            bound,
            purpose,
        } => {
            let _places = fill_closed(host);
            let serving = Serving {
                purpose,
                host: name,
                port,
                config,
                log,
                stats,
                bound,
            };
            return run_serve(host, rt, alloc, &mut output, &serving);
        }
        Command::Subscribe(command) => {
            let _places = fill_closed(host);
            let mut notes = WriteSink::new(host.stderr());
            let errors = WriteSink::new(host.stderr());
            return run_subscribe(&rt, alloc, &mut output, &mut notes, errors, &command);
        }
        Command::Publish(command) => {
            let _places = fill_closed(host);
            return run_publish(host, &rt, alloc, &command);
        }
        Command::PublishFile { path, command } => {
            let _places = fill_closed(host);
            return run_publish_file(host, &rt, alloc, path.as_str(), command);
        }
    };
    match ran {
        Ok(()) => Ok(()),
        Err(fault) => Err(Failure::of(alloc, fault)),
    }
}

/// Replays the lines of standard input.
fn run_replay<S: Sink>(
    host: &HostRuntime,
    alloc: Global,
    output: &mut S,
    config: &Config,
) -> Result<(), Failure>
    requires { 0 < length config.now.realms.items }
{
    let mut input = ReadSource::new(host.stdin());
    match replay(alloc, &mut input, output, config) {
        Ok(()) => Ok(()),
        Err(fault) => Err(Failure::of_replay(alloc, Fault::from(fault))),
    }
}

/// The words after the program's name.
fn words_of(host: &HostRuntime) -> Result<Vec<String>, Failure> {
    let alloc = host.alloc();
    let all = match env::args(host) {
        Ok(all) => all,
        Err(error) => return Err(Failure::to_have_words(alloc, &error)),
    };
    match all.skip(1).collect(alloc) {
        Ok(words) => Ok(words),
        Err(_) => Err(Failure::of(alloc, Fault::NoMemory)),
    }
}

/// Serves, or tells what would be served.
fn run_serve<R, S: Sink>(
    host: &HostRuntime,
    rt: R,
    alloc: Global,
    output: &mut S,
    serving: &Serving,
) -> Result<(), Failure>
where
    R: Threads
        + Wait
        + RandomSource
        + Clock
        + CpuClock
        + Net<Stream = TcpStream, Listener = TcpListener>
        + Copy
        + Send
        + 'static,
    requires { IsServable serving.now.config }
{
    let mut notes = WriteSink::new(host.stderr());
    match serving.purpose {
        Purpose::Serve => {
            let errors = if serving.log {
                Some(WriteSink::new(host.stderr()))
            } else {
                None
            };
            serve(rt, alloc, output, &mut notes, errors, serving)
        }
        Purpose::Check => {
            let port = Some(listen(&rt, alloc, serving, &mut notes));
            check(alloc, output, serving, port)
        }
        Purpose::CheckUnbound => {
            warn_of_host(serving, &mut notes);
            check(alloc, output, serving, None::<Result<TcpListener, Failure>>)
        }
    }
}

/// Listens at the port, and tells `notes` where that is one of every address of the machine.
fn listen<R: Net<Stream = TcpStream, Listener = TcpListener>, N: Sink>(
    rt: &R,
    alloc: Global,
    serving: &Serving,
    notes: &mut N,
) -> Result<TcpListener, Failure>
    ensures { IfErr result (λ failure. failure.fault ≡ Fault.ListenFault) }
{
    let host = serving.host.as_str();
    match TcpListener::bind(rt, (host, serving.port)) {
        Ok(listener) => {
            if let Ok(address) = listener.local_addr() {
                warn_of_exposure(address.ip().to_canonical(), notes);
            }
            Ok(listener)
        }
        Err(error) => Err(Failure::to_listen(alloc, host, serving.port, &error)),
    }
}

/// Listens, says so, and serves whoever connects. What happens to connections is told to `errors`, if there are any, and a warning to
/// `notes`, if there is one.
fn serve<R, S: Sink, N: Sink, E: Sink + Drop + Send + 'static>(
    rt: R,
    alloc: Global,
    output: &mut S,
    notes: &mut N,
    errors: Option<E>,
    serving: &Serving,
) -> Result<(), Failure>
where
    R: Threads
        + Wait
        + RandomSource
        + Clock
        + CpuClock
        + Net<Stream = TcpStream, Listener = TcpListener>
        + Copy
        + Send
        + 'static,
    requires servable { IsServable serving.now.config }
    requires asked { serving.now.purpose ≡ Purpose.Serve }
{
    let listener = listen(&rt, alloc, serving, notes)?;
    if let Err(fault) = announce(alloc, output, serving) {
        return Err(Failure::of(alloc, fault));
    }
    let Ok((log, end)) = start_log(rt, alloc, errors, serving) else {
        return Err(Failure::of(alloc, Fault::NoMemory));
    };
    let mut acceptor = TcpAcceptor::new(listener, rt);
    let served = serve_within(
        rt,
        alloc,
        &mut acceptor,
        &serving.config,
        serving.bound,
        log,
    );
    if let Some(end) = &end {
        await_end(&rt, end);
    }
    match served {
        Ok(()) => Ok(()),
        Err(fault) => Err(Failure::to_serve(alloc, Fault::from(fault), acceptor.last_failure())),
    }
}

/// Says where it listens.
fn announce<S: Sink>(alloc: Global, output: &mut S, serving: &Serving) -> Result<(), Fault> {
    let host = serving.host.as_str();
    let port = serving.port;
    let line = format!(in alloc; "listening on {host}:{port}\n")?;
    print(output, line.as_bytes())
}

/// Prints a text, given as its octets, whole.
fn print<S: Sink>(output: &mut S, text: &[u8]) -> Result<(), Fault>
    ensures written { OnOk result (Takes (S.seen output.old) (S.seen output.new) text.now) }
    ensures begun { TakesBeginning (S.seen output.old) (S.seen output.new) text.now }
    ensures which { IfErr result (λ fault. fault ≢ Fault.WriteFault → fault ≡ Fault.TooManyTurns) }
    ensures writes { WriteSteps (S.seen output.old) (S.seen output.new)
        (told_by write_told result) }
{
    let mut turns = Turns::new();
    match send(output, text, &mut turns) {
        Ok(()) => Ok(()),
        Err(rawsocket::Fault::WriteFault) => Err(Fault::WriteFault),
        Err(_) => Err(Fault::TooManyTurns),
    }
}
