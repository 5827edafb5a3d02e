//! What standard error is told of a fault, and the exit status that it gives.
ghost use Rattle.std.specs.Prelude.{◌≡◌, ◌⊎◌, ◌+◌, ◌++◌, ◌<◌, ◌≢◌, ◌≤◌, Err, IfErr, OnOk, string_bytes};
ghost use Rattle.rawsocket.specs.Devices.{Takes, TakesBeginning};
ghost use Rattle.rawsocket.specs.Steps.{Steps, device_told, told_by, write_meter};
ghost use Rattle.rawsocket.specs.declared.fault.Fault.TheVariants.{WriteFault as WriteFailed, TooManyTurns as NoTurnLeft};
ghost use Rattle.session.specs.Opened.{AreUsedUp, AreWithinTurns};
ghost use Rattle.command_line.specs.Commands.{IsWritten, exposure_warning, fault_line, line_number, name_of, status_of};
ghost use Rattle.std.specs.Net.Addr.{IsUnspecifiedV4, IsUnspecifiedV6, MatchIp};

use crate::fault::Fault;
use itoa::Buffer;
use rawsocket::devices::{Sink, Turns, send, write_all};
use std::net::IpAddr;

/// The name of a fault, without the line's number.
fn name(fault: &Fault) -> &'static str
    ensures { result.now ≡ name_of fault.now }
{
    match fault {
        Fault::NoMemory => "E1 no memory",
        Fault::ReadFault => "E16 read fault",
        Fault::WriteFault => "E17 write fault",
        Fault::Usage => "E19 usage",
        Fault::BadLine(_) => "E20 bad line ",
        Fault::TooManyTurns => "E25 too many turns",
        Fault::ListenFault => "E26 listen fault",
        Fault::ConnectFault => "E27 connect fault",
        Fault::Refused => "E28 refused by the broker",
        Fault::ConnectionFault => "E29 connection fault",
        Fault::LateAnswer => "E30 no answer in time",
        Fault::FileFault => "E31 file fault",
    }
}

/// Writes the number of the line that is at fault, if one is.
fn write_number<S: Sink>(
    fault: &Fault,
    sink: &mut S,
    turns: &mut Turns,
) -> Result<(), rawsocket::Fault>
    ensures written { OnOk result
        (Takes (S.seen sink.old) (S.seen sink.new) (line_number fault.now)) }
    ensures begun { TakesBeginning (S.seen sink.old) (S.seen sink.new) (line_number fault.now) }
    ensures steps { Steps (write_meter (S.seen sink.old) turns.old)
        (write_meter (S.seen sink.new) turns.new) (told_by device_told result) }
    ensures which { IfErr result (λ of. of ≢ WriteFailed → of ≡ NoTurnLeft) }
{
    match fault {
        Fault::BadLine(line) => {
            let mut digits = Buffer::new();
            write_all(sink, digits.format(*line).as_bytes(), turns)
        }
        _ => Ok(()),
    }
}

/// Writes the line of a fault.
fn write_fault<S: Sink>(
    fault: &Fault,
    sink: &mut S,
    turns: &mut Turns,
) -> Result<(), rawsocket::Fault>
    ensures written { OnOk result
        (Takes (S.seen sink.old) (S.seen sink.new) (fault_line fault.now)) }
    ensures begun { TakesBeginning (S.seen sink.old) (S.seen sink.new) (fault_line fault.now) }
    ensures steps { Steps (write_meter (S.seen sink.old) turns.old)
        (write_meter (S.seen sink.new) turns.new) (told_by device_told result) }
    ensures which { IfErr result (λ of. of ≢ WriteFailed → of ≡ NoTurnLeft) }
{
    write_all(sink, b"wampd: ", turns)?;
    write_all(sink, name(fault).as_bytes(), turns)?;
    write_number(fault, sink, turns)?;
    send(sink, b"\n", turns)
}

/// The exit status of a fault.
fn status(fault: &Fault) -> u8
    ensures { result ≡ status_of fault.now }
{
    match fault {
        Fault::Usage => 2,
        Fault::BadLine(_) => 2,
        Fault::NoMemory => 1,
        Fault::ReadFault => 1,
        Fault::WriteFault => 1,
        Fault::TooManyTurns => 1,
        Fault::ListenFault => 1,
        Fault::ConnectFault => 1,
        Fault::Refused => 1,
        Fault::ConnectionFault => 1,
        Fault::LateAnswer => 1,
        Fault::FileFault => 1,
    }
}

/// Writes the line of a fault, and gives the exit status: 2 for a command line or a line of input
/// that isn't accepted, 1 for the others. A sink that fails is passed over; a beginning of the line
/// is written then. It takes no memory.
pub fn report<S: Sink>(fault: &Fault, sink: &mut S) -> u8
    ensures status { result ≡ status_of fault.now }
    ensures line { (S.seen sink.new).failures ≡ (S.seen sink.old).failures →
        (Takes (S.seen sink.old) (S.seen sink.new) (fault_line fault.now)) ⊎ AreUsedUp
        (S.seen sink.old).calls (S.seen sink.new).calls }
    ensures begun { TakesBeginning (S.seen sink.old) (S.seen sink.new) (fault_line fault.now) }
    ensures writes { AreWithinTurns (S.seen sink.old).calls (S.seen sink.new).calls }
{
    let mut turns = Turns::new();
    let _ = write_fault(fault, sink, &mut turns);
    status(fault)
}

/// Writes the line of a fault, and behind it what else is told of it.
fn write_failure<S: Sink>(
    fault: &Fault,
    more: &[u8],
    sink: &mut S,
    turns: &mut Turns,
) -> Result<(), rawsocket::Fault>
    ensures written { OnOk result
        (Takes (S.seen sink.old) (S.seen sink.new) (fault_line fault.now ++ more.now)) }
    ensures begun { TakesBeginning (S.seen sink.old) (S.seen sink.new)
        (fault_line fault.now ++ more.now) }
    ensures steps { Steps (write_meter (S.seen sink.old) turns.old)
        (write_meter (S.seen sink.new) turns.new) (told_by device_told result) }
    ensures which { IfErr result (λ of. of ≢ WriteFailed → of ≡ NoTurnLeft) }
{
    write_fault(fault, sink, turns)?;
    send(sink, more, turns)
}

/// Writes the line of a fault as `report` does, and behind it what else is told of it, as it stands: `shown_line` of a reason, or a help.
/// It gives the exit status that `report` gives. A sink that fails is passed over; a beginning is written then. It takes no memory.
pub fn report_failure<S: Sink>(fault: &Fault, more: &[u8], sink: &mut S) -> u8
    ensures status { result ≡ status_of fault.now }
    ensures lines { (S.seen sink.new).failures ≡ (S.seen sink.old).failures → IsWritten
        (fault_line fault.now ++ more.now) (S.seen sink.old).taken (S.seen sink.new).taken
        (S.seen sink.old).calls (S.seen sink.new).calls }
    ensures begun { TakesBeginning (S.seen sink.old) (S.seen sink.new)
        (fault_line fault.now ++ more.now) }
    ensures writes { AreWithinTurns (S.seen sink.old).calls (S.seen sink.new).calls }
{
    let mut turns = Turns::new();
    let _ = write_failure(fault, more, sink, &mut turns);
    status(fault)
}

/// What is told where a broker listens at every address of the machine.
const EXPOSURE: &[u8] =
    b"wampd: warning: this --host is every address of the machine: whoever reaches the port can publish \
    and subscribe without a password; a firewall keeps others out, or --host 127.0.0.1 behind a proxy\n";

/// Warns, in a line, where a broker that listens at this address listens at every one of the machine: `0.0.0.0`, `::`. A sink that fails is
/// passed over. It takes no memory.
pub fn warn_of_exposure<S: Sink>(address: IpAddr, sink: &mut S)
    ensures warned { MatchIp address IsUnspecifiedV4 IsUnspecifiedV6
        → (S.seen sink.new).failures ≡ (S.seen sink.old).failures → IsWritten exposure_warning
        (S.seen sink.old).taken (S.seen sink.new).taken (S.seen sink.old).calls
        (S.seen sink.new).calls }
    ensures silent { (MatchIp address IsUnspecifiedV4 IsUnspecifiedV6 → ⊥)
        → S.seen sink.new ≡ S.seen sink.old }
{
    if address.is_unspecified() {
        write_warning(sink);
    }
}

/// Writes the warning.
fn write_warning<S: Sink>(sink: &mut S)
    ensures { (S.seen sink.new).failures ≡ (S.seen sink.old).failures → IsWritten exposure_warning
        (S.seen sink.old).taken (S.seen sink.new).taken (S.seen sink.old).calls
        (S.seen sink.new).calls }
{
    let mut turns = Turns::new();
    let _ = send(sink, EXPOSURE, &mut turns);
}
