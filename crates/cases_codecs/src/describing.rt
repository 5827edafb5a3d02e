//! A tree in words: null, true, 5, "text", x0aff, [1,2], {"k":1}, and ? for what is not carried.
use case_text::{hexadecimal, spell};
use message_tree::Tree;
use std::io;

fn separate(out: &mut String, is_first: bool) -> io::Result<()> {
    if !is_first {
        out.push(',')?;
    }
    Ok(())
}

/// Adds octets between quotation marks.
pub fn quote(out: &mut String, octets: &[u8]) -> io::Result<()> {
    out.push('"')?;
    spell(out, octets)?;
    out.push('"')?;
    Ok(())
}

/// Adds octets by two digits each, behind an x.
pub fn marked_octets(out: &mut String, octets: &[u8]) -> io::Result<()> {
    out.push('x')?;
    hexadecimal(out, octets)
}

/// Adds a tree in words, so many levels of it.
pub fn describe(out: &mut String, tree: &Tree, room: u8) -> io::Result<()> {
    if room == 0 {
        out.push_str("..")?;
        return Ok(());
    }
    match tree {
        Tree::Null => out.push_str("null")?,
        Tree::Flag(flag) => out.push_str(if *flag { "true" } else { "false" })?,
        Tree::Whole(number) => write!(out, "{number}")?,
        Tree::Text(text) => quote(out, text.as_str().as_bytes())?,
        Tree::Bytes(octets) => marked_octets(out, octets)?,
        Tree::List(items) => {
            out.push('[')?;
            let mut is_first = true;
            for item in items {
                separate(out, is_first)?;
                describe(out, item, room - 1)?;
                is_first = false;
            }
            out.push(']')?;
        }
        Tree::Dict(dict) => {
            out.push('{')?;
            let mut is_first = true;
            for (key, value) in dict.iter() {
                separate(out, is_first)?;
                quote(out, key.as_str().as_bytes())?;
                out.push(':')?;
                describe(out, value, room - 1)?;
                is_first = false;
            }
            out.push('}')?;
        }
        Tree::Uncarried => out.push('?')?,
    }
    Ok(())
}
