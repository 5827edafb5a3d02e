//! What is written as JSON.
use case_text::spell;
use message_tree::Appender;
use msgpack_to_json::write_json;
use std::alloc::Global;
use std::io;

/// What is written for the value at the front of octets, and the octets after it.
pub fn json(alloc: Global, octets: &[u8]) -> io::Result<String> {
    let mut out = Appender::new(Vec::from_slice(alloc, b"ab")?);
    match write_json(alloc, octets, &mut out) {
        Ok(rest) => {
            let mut told = String::new(alloc);
            spell(&mut told, &out.into_vec())?;
            told.push(' ')?;
            spell(&mut told, rest)?;
            told.push('\n')?;
            Ok(told)
        }
        Err(fault) => Ok(format!(in alloc; "{fault}\n")?),
    }
}
