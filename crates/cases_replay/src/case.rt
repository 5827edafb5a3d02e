//! A case: the input of a replay, the devices that it is read from and written to, and the run.
use crate::commands::{command, explained, failure, reports, served, warned};
use crate::script::Script;
use case_text::{Table, line_of};
use command_line::Fault;
use std::alloc::Global;
use std::io;

/// What the lines of a case have said so far.
#[derive(Drop)]
pub struct Case {
    script: Script,
}

impl Case {
    pub fn new(alloc: Global) -> Case {
        Case {
            script: Script::new(alloc),
        }
    }
}

impl Table for Case {
    fn take(&mut self, alloc: Global, line: &str) -> io::Result<String> {
        match line.split_once(' ') {
            Some(("#", _)) => {
                self.script = Script::new(alloc);
                line_of(alloc, line)
            }
            Some((">", text)) => {
                self.script.add(text, "\n")?;
                Ok(String::new(alloc))
            }
            Some((">>", text)) => {
                self.script.add(text, "")?;
                Ok(String::new(alloc))
            }
            Some((word, text)) => self.set(alloc, word, text),
            None => self.run(alloc, line),
        }
    }
}

impl Case {
    /// Sets what the case asks for.
    fn set(&mut self, alloc: Global, word: &str, text: &str) -> io::Result<String> {
        match word {
            "command" => return command(alloc, text),
            "explain" => return explained(alloc, text),
            "served" => return served(alloc, text),
            "warned" => return warned(alloc, text),
            "reason" => return failure(alloc, &Fault::ListenFault, text),
            "grants" => self.script.grants = String::from_str(alloc, text)?,
            "read" => self.script.failing_read = call_of(text),
            "write" => self.script.failing_write = call_of(text),
            _ => return line_of(alloc, "no case has this word"),
        }
        Ok(String::new(alloc))
    }

    /// Does what a word alone asks for.
    fn run(&mut self, alloc: Global, word: &str) -> io::Result<String> {
        match word {
            "slowly" => {
                self.script.is_slow = true;
                Ok(String::new(alloc))
            }
            "run" => self.script.told(alloc),
            "reads" => self.script.told_of_reads(alloc),
            "writes" => self.script.told_of_writes(alloc),
            "command" => command(alloc, ""),
            "reports" => reports(alloc),
            _ => line_of(alloc, "no case has this word"),
        }
    }
}

/// The number of a call in words such as `7 fails`.
fn call_of(text: &str) -> u64 {
    match text.split_once(' ') {
        Some((number, _)) => number.parse::<u64>().unwrap_or(u64::MAX),
        None => u64::MAX,
    }
}
