//! What a run of a command comes to.
use case_text::spelled;
use std::alloc::Global;
use std::io;

/// What was written to the broker, what was told of the time, what was noted, what was printed, and what came last.
#[derive(Drop)]
pub struct Outcome {
    pub written: Vec<u8>,
    /// Whole lines of the time that it took.
    pub told: String,
    pub noted: Vec<u8>,
    pub printed: Vec<u8>,
    pub end: String,
}

impl Outcome {
    /// All of it, in words.
    pub fn in_words(&self, alloc: Global) -> io::Result<String> {
        let written = spelled(alloc, self.written.as_slice())?;
        let end = self.end.as_str();
        let mut text = format!(in alloc; "wrote {written}\n")?;
        text.push_str(self.told.as_str())?;
        if !self.noted.is_empty() {
            let noted = spelled(alloc, self.noted.as_slice())?;
            text.push_str(format!(in alloc; "noted {noted}\n")?.as_str())?;
        }
        if !self.printed.is_empty() {
            let printed = spelled(alloc, self.printed.as_slice())?;
            text.push_str(format!(in alloc; "printed {printed}\n")?.as_str())?;
        }
        text.push_str(format!(in alloc; "{end}\n")?.as_str())?;
        Ok(text)
    }

    /// How much of it there is, and whether it is a beginning of the whole, where no call fails.
    pub fn counted(&self, alloc: Global, whole: &Outcome) -> io::Result<String> {
        let written = self.written.len();
        let noted = self.noted.len();
        let printed = self.printed.len();
        let is_begun = whole
            .written
            .as_slice()
            .starts_with(self.written.as_slice())
            && whole.noted.as_slice().starts_with(self.noted.as_slice())
            && whole
                .printed
                .as_slice()
                .starts_with(self.printed.as_slice());
        let others = if is_begun { "" } else { "other " };
        let end = self.end.as_str();
        Ok(format!(in alloc;
            "{others}{written} written, {noted} noted, {printed} printed, {end}\n"
        )?)
    }
}
