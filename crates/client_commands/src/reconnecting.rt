//! `subscribe` over one connection after another.
ghost use Rattle.std.specs.Prelude.{◌≡◌, ◌≤◌, ℕ, [], IfErr, OnOk, Option, Some, false};
ghost use Rattle.rawsocket.specs.Steps.{told_by};
ghost use Rattle.client_commands.specs.Faults.{WriteFailuresTold, is_passing, output_told};
ghost use Rattle.client_commands.specs.Notes.{noting};
ghost use Rattle.client_commands.specs.Reconnecting.{PrintsOnce, PrintsOverAll, pause_behind, stage};

use crate::command::SubscribeCommand;
use crate::fault::Fault;
use crate::listener::Listener;
use crate::subscribing::subscribe;
use crate::timing::Timing;
use rawsocket::devices::{Sink, Source};
use std::alloc::Global;

/// The longest pause, in seconds.
const LONGEST: u32 = 60;

/// Where connections to a broker come from.
pub trait Dialer {
    /// Connects, and does over that connection what [`crate::subscribe`] does.
    ///
    /// # Errors
    /// [`Fault::Unreachable`] where there is no connection, and as [`crate::subscribe`] fails.
    fn subscribe<P: Sink, N: Sink>(
        &mut self,
        alloc: Global,
        command: &SubscribeCommand,
        listener: &mut Listener,
        output: &mut P,
        notes: &mut N,
    ) -> Result<(), Fault>
        ensures prints { PrintsOnce command.now
            (stage (P.seen output.old).taken (noting (N.seen notes.old)) listener.old.left)
            (stage (P.seen output.new).taken (noting (N.seen notes.new)) listener.new.left) }
        ensures done { OnOk result (listener.new.left ≡ Some 0) }
        ensures lines { WriteFailuresTold (P.seen output.old) (P.seen output.new)
            (told_by output_told result) };

    /// Waits so many seconds before the next connection. The last one ended by this fault.
    fn wait(&mut self, alloc: Global, seconds: u32, fault: Fault)
        requires { (1 ≤ seconds) × (seconds ≤ 60) };
}

/// What [`crate::subscribe`] does over a connection of which nothing is read and nothing written, as a [`Dialer`] is to say it.
///
/// # Errors
/// As [`crate::subscribe`].
pub fn subscribe_once<I: Source, O: Sink, P: Sink, N: Sink, T: Timing>(
    alloc: Global,
    command: &SubscribeCommand,
    listener: &mut Listener,
    source: &mut I,
    sink: &mut O,
    output: &mut P,
    notes: &mut N,
    timing: &mut T,
) -> Result<(), Fault>
    requires unread { (I.seen source.old).given ≡ [] }
    requires unwritten { (O.seen sink.old).taken ≡ [] }
    ensures prints { PrintsOnce command.now
        (stage (P.seen output.old).taken (noting (N.seen notes.old)) listener.old.left)
        (stage (P.seen output.new).taken (noting (N.seen notes.new)) listener.new.left) }
    ensures done { OnOk result (listener.new.left ≡ Some 0) }
    ensures lines { WriteFailuresTold (P.seen output.old) (P.seen output.new)
        (told_by output_told result) }
{
    subscribe(
        alloc, command, listener, source, sink, output, notes, timing,
    )
}

/// How many seconds it waits, where the last pause had so many: 1 behind a connection over which it was subscribed, else twice as
/// many as before, from 1 to 60.
fn pause_behind(last: u32, was_subscribed: bool) -> u32
    requires { last ≤ 60 }
    ensures pause { result ≡ pause_behind last was_subscribed }
    ensures some { 1 ≤ result }
    ensures few { result ≤ 60 }
{
    if was_subscribed {
        return 1;
    }
    (2 * last).max(1).min(LONGEST)
}

/// Subscribes as [`crate::subscribe`], and again over another connection where the last one is lost, until so many events are
/// printed over all of them as the command says, or it fails otherwise. What is published meanwhile is missed.
///
/// Where a connection couldn't be made, broke, or had no answer in time, where the broker closed the session or has no seat left, it waits: a
/// second at first, and behind each connection that didn't come to all its subscriptions twice as long, 60 seconds at most.
///
/// # Errors
/// As [`crate::subscribe`] fails where another connection wouldn't help: [`Fault::is_passing`] is false of it.
pub fn resubscribe<D: Dialer, P: Sink, N: Sink>(
    alloc: Global,
    command: &SubscribeCommand,
    dialer: &mut D,
    output: &mut P,
    notes: &mut N,
) -> Result<(), Fault>
    ensures prints { (connections : ℕ) × (left : Option ℕ) × PrintsOverAll command.now connections
        (stage (P.seen output.old).taken (noting (N.seen notes.old)) command.now.count)
        (stage (P.seen output.new).taken (noting (N.seen notes.new)) left)
        × OnOk result (left ≡ Some 0) }
    ensures ends { IfErr result (λ fault. is_passing fault ≡ false) }
    ensures lines { WriteFailuresTold (P.seen output.old) (P.seen output.new)
        (told_by output_told result) }
{
    let mut listener = Listener::new(command.count);
    let mut pause = 0;
    'connections: for _ in 0..u64::MAX {
        match dialer.subscribe(alloc, command, &mut listener, output, notes) {
            Ok(()) => return Ok(()),
            Err(fault) => {
                if !fault.is_passing() {
                    return Err(fault);
                }
                pause = pause_behind(pause, listener.is_subscribed);
                dialer.wait(alloc, pause, fault);
            }
        }
    }
    Err(Fault::TooManyTurns)
}
