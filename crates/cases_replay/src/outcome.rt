//! What a replay comes to.
use command_line::Fault;
use std::alloc::Global;
use std::io;

/// What a replay wrote, and its fault.
#[derive(Drop)]
pub struct Outcome {
    pub octets: Vec<u8>,
    pub fault: Option<Fault>,
}

impl Outcome {
    /// What was written, and the fault on a line of its own.
    pub fn told(&self, alloc: Global) -> io::Result<String> {
        let Ok(text) = std::str::from_utf8(self.octets.as_slice()) else {
            return Ok(String::from_str(alloc, "no text\n")?);
        };
        match &self.fault {
            None => Ok(String::from_str(alloc, text)?),
            Some(fault) => Ok(format!(in alloc; "{text}fault {fault}\n")?),
        }
    }

    /// The fault, as a line; none where it isn't want of memory.
    pub fn want_of_memory(&self, alloc: Global) -> io::Result<String> {
        match &self.fault {
            Some(Fault::NoMemory) => ending(alloc, &self.fault),
            _ => Ok(String::new(alloc)),
        }
    }

    /// Adds a line that says how many octets were written, whether they are others than those of the whole, where no call fails, and the
    /// fault; none, if it is the line before.
    pub fn add_to(&self, alloc: Global, out: &mut String, whole: &Outcome) -> io::Result<()> {
        let line = self.summary(alloc, whole.octets.as_slice())?;
        if !out.as_str().ends_with(line.as_str()) {
            out.push_str(line.as_str())?;
        }
        Ok(())
    }

    fn summary(&self, alloc: Global, whole: &[u8]) -> io::Result<String> {
        let octets = self.octets.as_slice();
        let others = if whole.starts_with(octets) {
            ""
        } else {
            "other "
        };
        let count = octets.len();
        let end = ending(alloc, &self.fault)?;
        Ok(format!(in alloc; "{count} {others}octets, {end}")?)
    }
}

fn ending(alloc: Global, fault: &Option<Fault>) -> io::Result<String> {
    match fault {
        None => Ok(String::from_str(alloc, "no fault\n")?),
        Some(fault) => Ok(format!(in alloc; "fault {fault}\n")?),
    }
}
