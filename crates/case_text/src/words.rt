//! The words of a line, and the lines that answer it.
use std::alloc::Global;
use std::io;

/// A text as a line.
pub fn line_of(alloc: Global, text: &str) -> io::Result<String> {
    Ok(format!(in alloc; "{text}\n")?)
}

/// The first word, and what is behind it.
pub fn part(text: &str) -> (&str, &str) {
    match text.split_once(' ') {
        Some(parts) => parts,
        None => (text, ""),
    }
}

/// What a word stands for: nothing where it is `-`.
pub fn part_of(word: &str) -> &str {
    match word {
        "-" => "",
        _ => word,
    }
}

/// The number that a text begins with, up to a space; 0 where it begins with none.
pub fn number_of(text: &str) -> u64 {
    match text.split_once(' ') {
        Some((number, _)) => number.parse::<u64>().unwrap_or(0),
        None => text.parse::<u64>().unwrap_or(0),
    }
}

/// Whether an answer says that memory was refused. A driver then takes the line once more, and what
/// it answers is as if nothing had been refused.
pub fn is_refused(answer: &str) -> bool {
    answer.contains("E1 no memory")
}
