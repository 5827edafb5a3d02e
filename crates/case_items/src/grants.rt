//! Grants, as a line has them.
use case_text::part;
use std::alloc::{AllocError, Global};

/// An authid and its authrole.
pub fn grant_of(alloc: Global, text: &str) -> Result<(String, String), AllocError> {
    let (authid, authrole) = part(text);
    let authid = String::from_str(alloc, authid)?;
    Ok((authid, String::from_str(alloc, authrole)?))
}
