//! The words of `--grants`: which authid may be asked for, and the role that goes with it.
ghost use Rattle.std.specs.Prelude.{◌≡◌, None, Some, IfErr, IfOk, map, option_map, string_bytes, ◌∷◌, ◌==◌, if◌then◌else◌};
ghost use Rattle.std.specs.List.{slice_split};
ghost use Rattle.command_line.specs.Grants.{IsRefused, are_grants, bytes_of, grants_of, name_each_once, names, pair_by, pair_of, pairs_of};

use crate::fault::Fault;
use crate::refusal::invalid_value;
use std::alloc::{AllocError, Global};

/// How many grants there may be.
const MOST_GRANTS: usize = 1000;

/// Reads grants: pairs `authid:role` joined by commas, each with one colon, neither side empty, no
/// authid twice, at most 1,000 of them. The empty text is no grants.
///
/// # Errors
/// `Usage` where the text is none of that; `NoMemory` where a growth was refused.
pub fn read_grants(alloc: Global, text: &str) -> Result<Vec<(String, String)>, Fault>
    ensures grants { IfOk result (λ grants. grants_of text.now ≡ Some (bytes_of grants.items)) }
    ensures refused { IfErr result (IsRefused text.now) }
{
    if text.is_empty() {
        return Ok(Vec::new(alloc));
    }
    let texts = at_commas(alloc, text)?;
    match pairs_in(alloc, &texts)? {
        Some(pairs) if are_grants(&pairs) => Ok(pairs),
        _ => Err(Fault::Usage),
    }
}

/// The argument that grants are a value of.
const ARGUMENT: &str = "--grants <AUTHID:ROLE,..>";

/// Why a text is no pair.
const NO_PAIR: &str = "a grant is authid:role, with one colon, and neither side is empty";

/// What is wrong with a text that `read_grants` refuses: which pair is none, or which authid stands twice.
pub fn wrong_grants(alloc: Global, text: &str) -> Result<String, AllocError> {
    let mut pairs = Vec::new(alloc);
    for pair in text.split(',') {
        let Some((authid, _)) = pair_in(pair) else {
            return invalid_value(alloc, pair, ARGUMENT, NO_PAIR);
        };
        if pairs.len() == MOST_GRANTS {
            return invalid_value(alloc, pair, ARGUMENT, "there are 1000 grants before it");
        }
        if pairs.contains(&authid) {
            return invalid_value(alloc, authid, ARGUMENT, "this authid is granted twice");
        }
        pairs.push(authid)?;
    }
    invalid_value(alloc, text, ARGUMENT, "these are no grants")
}

/// An authid and a role, in memory of their own.
fn own(alloc: Global, authid: &str, role: &str) -> Result<(String, String), AllocError>
    ensures pair { IfOk result (λ pair. (string_bytes pair.0 ≡ authid.now)
        × (string_bytes pair.1 ≡ role.now)) }
{
    let authid = String::from_str(alloc, authid)?;
    let role = String::from_str(alloc, role)?;
    Ok((authid, role))
}

/// What stands between the commas.
fn at_commas(alloc: Global, text: &str) -> Result<Vec<&str>, AllocError>
    ensures texts { IfOk result (λ texts.
        map (λ t. t.now) texts.items ≡ slice_split (λ c. c == 44) text.now) }
{
    Ok(text.split(',').collect(alloc)?)
}

/// Whether there are at most 1,000, and no authid stands twice.
fn are_grants(pairs: &[(String, String)]) -> bool
    ensures { result ≡ are_grants (bytes_of pairs.now) }
{
    pairs.len() <= MOST_GRANTS && name_each_once(pairs)
}

/// The pairs that these texts are, where each of them is one.
fn pairs_in(alloc: Global, texts: &[&str]) -> Result<Option<Vec<(String, String)>>, AllocError>
    ensures pairs { IfOk result (λ pairs.
        option_map (λ v. bytes_of v.items) pairs ≡ pairs_of (map (λ t. t.now) texts.now)) }
{
    let mut pairs = Vec::new(alloc);
    for text in texts {
        let Some((authid, role)) = pair_in(text) else {
            return Ok(None);
        };
        pairs.push(own(alloc, authid, role)?)?;
    }
    Ok(Some(pairs))
}

/// What stands before the one colon, and what stands after it.
fn pair_in(text: &str) -> Option<(&str, &str)>
    ensures { option_map (λ p. (p.0.now, p.1.now)) result ≡ pair_of text.now }
{
    match text.split_once(':') {
        Some((authid, role)) if is_pair(authid, role) => Some((authid, role)),
        _ => None,
    }
}

/// Whether neither is empty, and the role has no colon.
fn is_pair(authid: &str, role: &str) -> bool
    ensures { pair_by (authid.now ∷ slice_split (λ c. c == 58) role.now)
        ≡ (if result then Some (authid.now, role.now) else None) }
{
    if authid.is_empty() {
        return false;
    }
    if role.is_empty() {
        return false;
    }
    !role.contains(':')
}

/// Whether no authid stands twice.
fn name_each_once(pairs: &[(String, String)]) -> bool
    ensures { result ≡ name_each_once (bytes_of pairs.now) }
{
    for i in 0..pairs.len() {
        if names(pairs[i].0.as_str(), &pairs[i + 1..]) {
            return false;
        }
    }
    true
}

/// Whether one of the pairs has this authid.
fn names(authid: &str, pairs: &[(String, String)]) -> bool
    ensures { result ≡ names authid.now (bytes_of pairs.now) }
{
    for pair in pairs {
        if pair.0.as_str() == authid {
            return true;
        }
    }
    false
}
