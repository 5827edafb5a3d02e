//! `serve --check`: what a broker would serve is told, and nobody is served.
ghost use Rattle.std.specs.Prelude.{◌≡◌, ◌≢◌, Err, None, OnOk, Some};
ghost use Rattle.rawsocket.specs.Devices.{Takes, TakesBeginning};
ghost use Rattle.command_line.specs.Served.{served_lines};

use crate::failure::Failure;
use crate::print;
use broker_server::{Fault, Purpose, Serving, served_lines, warn_of_exposure};
use rawsocket::devices::Sink;
use std::alloc::Global;
use std::net::IpAddr;

/// Prints what would be served. `port` is what came of listening at the port, which is let go of before that: `None` where the words say
/// that it be left alone.
///
/// # Errors
/// The failure to listen, before anything is printed: serving would end by the same. Else want of memory, or that printing failed.
pub fn check<S: Sink, L: Drop>(
    alloc: Global,
    output: &mut S,
    serving: &Serving,
    port: Option<Result<L, Failure>>,
) -> Result<(), Failure>
    requires asked { serving.now.purpose ≢ Purpose.Serve }
    requires tried { serving.now.purpose ≡ Purpose.Check → port ≢ None }
    requires left_alone { serving.now.purpose ≡ Purpose.CheckUnbound → port ≡ None }
    ensures refused { (failure : Failure) → port ≡ Some (Err failure) → result ≡ Err failure }
    ensures silent { (failure : Failure) → port ≡ Some (Err failure)
        → S.seen output.new ≡ S.seen output.old }
    ensures told { OnOk result
        (Takes (S.seen output.old) (S.seen output.new) (served_lines serving.now)) }
    ensures begun { TakesBeginning (S.seen output.old) (S.seen output.new)
        (served_lines serving.now) }
{
    match port {
        Some(Err(failure)) => return Err(failure),
        bound => drop(bound),
    }
    match tell(alloc, output, serving) {
        Ok(()) => Ok(()),
        Err(fault) => Err(Failure::of(alloc, fault)),
    }
}

/// Prints what is served.
fn tell<S: Sink>(alloc: Global, output: &mut S, serving: &Serving) -> Result<(), Fault>
    ensures told { OnOk result
        (Takes (S.seen output.old) (S.seen output.new) (served_lines serving.now)) }
    ensures begun { TakesBeginning (S.seen output.old) (S.seen output.new)
        (served_lines serving.now) }
{
    let lines = served_lines(alloc, serving)?;
    print(output, &lines)
}

/// Warns where the host is spelt as an address that stands for every one of the machine. A name isn't looked up.
pub fn warn_of_host<S: Sink>(serving: &Serving, notes: &mut S) {
    if let Ok(address) = serving.host.as_str().parse::<IpAddr>() {
        warn_of_exposure(address.to_canonical(), notes);
    }
}
