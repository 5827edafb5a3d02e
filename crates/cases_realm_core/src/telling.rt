//! What steps did, and what sessions are told, as text.
use case_items::item_text;
use realm_core::{Fault, Item, Run, Stepped};
use std::alloc::Global;
use std::io;
use wamp_ids::Conn;

fn took(alloc: Global, item: &Item) -> io::Result<String> {
    let text = item_text(alloc, item)?;
    Ok(format!(in alloc; "took {text}\n")?)
}

/// What a step did.
fn stepped_text(alloc: Global, stepped: &Stepped) -> io::Result<String> {
    let text = match stepped {
        Stepped::Posted => "posted\n",
        Stepped::Accepted => "accepted\n",
        Stepped::Dropped => "dropped\n",
        Stepped::Lost => "lost\n",
        Stepped::Pushed => "pushed\n",
        Stepped::FoundFull => "found full\n",
        Stepped::Took(item) => return took(alloc, item),
        Stepped::Left => "left\n",
        Stepped::Idle => "idle\n",
    };
    Ok(String::from_str(alloc, text)?)
}

/// What a step did, or its fault.
pub fn outcome_text(alloc: Global, outcome: &Result<Stepped, Fault>) -> io::Result<String> {
    match outcome {
        Ok(stepped) => stepped_text(alloc, stepped),
        Err(fault) => Ok(format!(in alloc; "{fault}\n")?),
    }
}

fn given_line(alloc: Global, conn: Conn, item: &Item) -> io::Result<String> {
    let text = item_text(alloc, item)?;
    let number = conn.value();
    Ok(format!(in alloc; "{number} {text}\n")?)
}

/// What was given, a line for each item.
pub fn given_text(alloc: Global, given: &[(Conn, Item)]) -> io::Result<String> {
    let mut lines = String::new(alloc);
    for (conn, item) in given {
        let line = given_line(alloc, *conn, item)?;
        lines.push_str(line.as_str())?;
    }
    Ok(lines)
}

/// What a run took, how many steps it made, and its fault.
pub fn run_text(alloc: Global, run: &Run) -> io::Result<String> {
    let taken = given_text(alloc, &run.taken)?;
    let done = run.done;
    match &run.fault {
        None => Ok(format!(in alloc; "{taken}done {done}\n")?),
        Some(fault) => Ok(format!(in alloc; "{taken}done {done}\n{fault}\n")?),
    }
}
