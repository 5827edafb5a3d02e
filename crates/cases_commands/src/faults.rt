//! Each fault, as it is printed.
use client_commands::Fault;
use message_tree::Text;
use std::alloc::Global;
use std::io;

/// Adds the line of a fault.
fn add(alloc: Global, text: &mut String, fault: Fault) -> io::Result<()> {
    let line = format!(in alloc; "fault {fault}\n")?;
    text.push_str(line.as_str())?;
    Ok(())
}

/// Each fault of a command as a line.
pub fn faults(alloc: Global) -> io::Result<String> {
    let mut text = String::new(alloc);
    add(alloc, &mut text, Fault::NoMemory)?;
    add(alloc, &mut text, Fault::ReadFault)?;
    add(alloc, &mut text, Fault::WriteFault)?;
    add(alloc, &mut text, Fault::Usage)?;
    add(alloc, &mut text, Fault::BadLine(8))?;
    add(alloc, &mut text, Fault::TooManyTurns)?;
    let reason = Text::of(alloc, "wamp.error.no_such_realm")?;
    add(alloc, &mut text, Fault::Refused(reason))?;
    add(
        alloc,
        &mut text,
        Fault::Connection(client_session::Fault::Ended),
    )?;
    add(alloc, &mut text, Fault::Unexpected)?;
    add(alloc, &mut text, Fault::ForeignEvent)?;
    let closing = Text::of(alloc, "wamp.close.system_shutdown")?;
    add(alloc, &mut text, Fault::Closed(closing))?;
    add(alloc, &mut text, Fault::Unreachable)?;
    Ok(text)
}
