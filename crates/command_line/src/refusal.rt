//! Why words are refused, in words.
ghost use Rattle.std.specs.Prelude.{◌≡◌, ◌++◌, IfErr, IfOk, string_bytes};
ghost use Rattle.command_line.specs.Commands.{fault_of_refusal};
ghost use Rattle.command_line.specs.Reasons.{NamesValue, client_of, command_of, hint, invalid_value};

use crate::fault::Fault;
use std::alloc::{AllocError, AllocFailed, Global};

/// Why words are refused.
#[derive(Drop)]
pub enum CommandRefusal {
    /// A growth of memory was refused.
    NoMemory,
    /// They are no command line. The text says what is wrong, and may hold any of their octets.
    Usage(String),
}

impl CommandRefusal {
    /// The fault that it is.
    pub fn fault(&self) -> Fault
        ensures { result ≡ fault_of_refusal self.now }
    {
        match self {
            CommandRefusal::NoMemory => Fault::NoMemory,
            CommandRefusal::Usage(_) => Fault::Usage,
        }
    }
}

impl From<AllocError> for CommandRefusal {
    ghost use Rattle.std.specs.Prelude.{◌≡◌};
    ghost use Rattle.command_line.specs.declared.refusal.CommandRefusal.TheVariants.{NoMemory};

    ghost from_gives = { λ _ refusal. refusal ≡ NoMemory };

    fn from(_refused: AllocError) -> CommandRefusal {
        CommandRefusal::NoMemory
    }
}

impl<T: Drop> From<AllocFailed<T>> for CommandRefusal {
    ghost use Rattle.std.specs.Prelude.{◌≡◌};
    ghost use Rattle.command_line.specs.declared.refusal.CommandRefusal.TheVariants.{NoMemory};

    ghost from_gives = { λ _ refusal. refusal ≡ NoMemory };

    fn from(_refused: AllocFailed<T>) -> CommandRefusal {
        CommandRefusal::NoMemory
    }
}

/// That a value is refused, of which argument, and why: in the parser's own words.
pub fn invalid_value(
    alloc: Global,
    value: &str,
    argument: &str,
    why: &str,
) -> Result<String, AllocError>
    ensures { IfOk result (λ text. string_bytes text
        ≡ invalid_value value.now argument.now why.now) }
{
    format!(in alloc; "invalid value '{value}' for '{argument}': {why}")
}

/// Refuses the words with this reason.
pub fn refused<T: Drop>(alloc: Global, reason: &str) -> Result<T, CommandRefusal>
    ensures { IfOk result (λ _. ⊥) }
{
    Err(CommandRefusal::Usage(String::from_str(alloc, reason)?))
}

/// Refuses the words since this value isn't one that the argument takes.
pub fn refused_value<T: Drop>(
    alloc: Global,
    value: &str,
    argument: &str,
    why: &str,
) -> Result<T, CommandRefusal>
    ensures none { IfOk result (λ _. ⊥) }
    ensures reason { IfErr result (NamesValue value.now argument.now why.now) }
{
    Err(CommandRefusal::Usage(invalid_value(alloc, value, argument, why)?))
}

/// What a text of the parser says is wrong, on one line: `error: ` in front and the usage behind are
/// left out, and a tip stands behind a semicolon.
pub fn one_line(alloc: Global, text: &str) -> Result<String, AllocError> {
    let text = text.strip_prefix("error: ").unwrap_or(text);
    let text = before(before(text, "\n\nFor more information"), "\n\nUsage: ");
    let mut line = String::new(alloc);
    for part in text.lines() {
        let part = part.trim();
        if let Some(tip) = part.strip_prefix("tip: ") {
            line.push_str("; ")?;
            line.push_str(tip)?;
        } else if !part.is_empty() {
            if !line.is_empty() {
                line.push(' ')?;
            }
            line.push_str(part)?;
        }
    }
    Ok(line)
}

/// What stands before the last of these marks; the whole text where there is none.
fn before<'a>(text: &'a str, mark: &str) -> &'a str {
    match text.rsplit_once(mark) {
        Some((front, _)) => front,
        None => text,
    }
}

/// What the help of the command that the words begin with is asked of.
pub fn command_of(words: &[String]) -> &'static str
    ensures { result.now ≡ command_of words.now }
{
    if words.is_empty() {
        return "wampd";
    }
    let word = words[0].as_str();
    if word == "replay" {
        "wampd replay"
    } else if word == "serve" {
        "wampd serve"
    } else {
        client_of(word)
    }
}

/// The same, of a word that names no command but perhaps a client's.
fn client_of(word: &str) -> &'static str
    ensures { result.now ≡ client_of word.now }
{
    if word == "subscribe" {
        "wampd subscribe"
    } else if word == "publish" {
        "wampd publish"
    } else {
        "wampd"
    }
}

/// The reason, and where help is.
pub fn with_hint(alloc: Global, reason: &str, command: &str) -> Result<String, AllocError>
    ensures { IfOk result (λ text. string_bytes text ≡ reason.now ++ hint command.now) }
{
    format!(in alloc; "{reason}; for more information, try '{command} --help'")
}
