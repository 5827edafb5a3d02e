//! Dictionaries, and what is found in them.
use crate::describing::describe;
use case_text::{line_of, number_of, spell};
use message_tree::{Content, Dict, Message, Options, Tree};
use std::alloc::{AllocError, Global};
use std::io;

/// The entries of a dictionary that these are set in, in its order, and each by its place.
pub fn dictionary(alloc: Global, entries: &str) -> io::Result<String> {
    let dict = set(alloc, entries)?;
    entries_of(alloc, &dict)
}

fn set(alloc: Global, entries: &str) -> Result<Dict, AllocError> {
    let mut dict = Dict::new(alloc);
    for entry in entries.split(' ') {
        if let Some((key, number)) = entry.split_once('=') {
            let value = Tree::Whole(number_of(number) as i128);
            dict.set(alloc, String::from_str(alloc, key)?, value)?;
        }
    }
    Ok(dict)
}

fn entries_of(alloc: Global, dict: &Dict) -> io::Result<String> {
    let count = dict.len();
    let mut text = format!(in alloc; "{count}:")?;
    for (key, value) in dict.iter() {
        entry(&mut text, key.as_str(), value)?;
    }
    text.push_str("; by place")?;
    for place in 0..count {
        if let Some((key, value)) = dict.at(place) {
            entry(&mut text, key, value)?;
        }
    }
    text.push_str(if dict.at(count).is_none() {
        "\n"
    } else {
        " more\n"
    })?;
    Ok(text)
}

fn entry(text: &mut String, key: &str, value: &Tree) -> io::Result<()> {
    text.push(' ')?;
    spell(text, key.as_bytes())?;
    text.push('=')?;
    describe(text, value, 102)
}

/// The words of `KEY JSON`: what is found under the key by a message, a content, a tree, and where it
/// is a dictionary by this and by options.
pub fn get(alloc: Global, words: &str) -> io::Result<String> {
    let Some((key, json)) = words.split_once(' ') else {
        return line_of(alloc, "no key");
    };
    match json_codec::decode(alloc, json.as_bytes()) {
        Ok(message) => found(alloc, key, message),
        Err(fault) => Ok(format!(in alloc; "{fault}\n")?),
    }
}

fn found(alloc: Global, key: &str, message: Message) -> io::Result<String> {
    let mut text = String::from_str(alloc, "message")?;
    value(&mut text, message.get(key))?;
    text.push_str(", content")?;
    let content = Content::of(message.into_tree());
    value(&mut text, content.get(key))?;
    text.push_str(", tree")?;
    value(&mut text, content.tree().get(key))?;
    found_in_options(text, key, content.into_tree())
}

fn found_in_options(mut text: String, key: &str, tree: Tree) -> io::Result<String> {
    if let Tree::Dict(dict) = tree {
        text.push_str(", dictionary")?;
        value(&mut text, dict.get(key))?;
        text.push_str(", options")?;
        let options = Options::of(dict);
        value(&mut text, options.get(key))?;
    }
    text.push('\n')?;
    Ok(text)
}

fn value(text: &mut String, found: Option<&Tree>) -> io::Result<()> {
    text.push(' ')?;
    match found {
        None => Ok(text.push_str("none")?),
        Some(tree) => describe(text, tree, 102),
    }
}

/// Depth, whether it is carried, and whether a copy is the same: of the content, its tree, and where
/// it is a dictionary of options.
pub fn copies(alloc: Global, json: &str) -> io::Result<String> {
    match json_codec::decode(alloc, json.as_bytes()) {
        Ok(message) => copied(alloc, Content::of(message.into_tree())),
        Err(fault) => Ok(format!(in alloc; "{fault}\n")?),
    }
}

fn copied(alloc: Global, content: Content) -> io::Result<String> {
    let depth = content.depth();
    let is_carried = content.is_carried();
    let mut text = format!(in alloc; "{depth} {is_carried}, content")?;
    sameness(&mut text, is_content_copied(alloc, &content)?)?;
    text.push_str(", tree")?;
    sameness(&mut text, is_tree_copied(alloc, content.tree())?)?;
    options_copied(alloc, text, content.into_tree())
}

fn options_copied(alloc: Global, mut text: String, tree: Tree) -> io::Result<String> {
    if let Tree::Dict(dict) = tree {
        text.push_str(", options")?;
        sameness(&mut text, are_options_copied(alloc, &Options::of(dict))?)?;
    }
    text.push('\n')?;
    Ok(text)
}

fn sameness(text: &mut String, is_same: bool) -> io::Result<()> {
    Ok(write!(text, " {is_same}")?)
}

fn is_content_copied(alloc: Global, content: &Content) -> Result<bool, AllocError> {
    let copy = content.try_copy(alloc)?;
    Ok(copy.into_tree() == *content.tree())
}

fn is_tree_copied(alloc: Global, tree: &Tree) -> Result<bool, AllocError> {
    let copy = tree.try_copy(alloc)?;
    Ok(copy == *tree && copy.depth() == tree.depth())
}

fn are_options_copied(alloc: Global, options: &Options) -> Result<bool, AllocError> {
    let copy = options.try_copy(alloc)?;
    Ok(copy.into_dict() == *options.dict())
}
