//! Reading one option by its kind. An option whose value is null counts as absent.
ghost use Rattle.std.specs.Prelude.{◌≡◌, false};
ghost use Rattle.message_tree.specs.Data.{find_entry};
ghost use Rattle.message_tree.specs.View.{dict_view};
ghost use Rattle.eligibility.specs.Options.{flag_or};
ghost use Rattle.wamp_messages.specs.Options.{match_of, policy_named, policy_or_exact};

use message_tree::{Dict, Tree};
use msgpack_cursor::{Seen, Value};
use wamp_ids::Policy;

/// The flag that a value is, false where it is absent; `None` where it has a wrong type.
pub(crate) fn flag_of(value: Option<Value<'_>>) -> Option<bool>
    ensures { result ≡ flag_or false value.entry }
{
    let Some(value) = value else {
        return Some(false);
    };
    match value.seen() {
        Seen::Null => Some(false),
        Seen::Flag(flag) => Some(flag),
        _ => None,
    }
}

/// The flag at a key, as of [`flag_of`].
pub(crate) fn flag_at(options: &Dict, key: &str) -> Option<bool>
    ensures { result ≡ flag_or false (find_entry key.now (dict_view options.now)) }
{
    match options.get(key) {
        None => Some(false),
        Some(Tree::Null) => Some(false),
        Some(Tree::Flag(flag)) => Some(*flag),
        Some(_) => None,
    }
}

/// The policy that a value names, exact where it is absent; `None` where it names none.
pub(crate) fn policy_of(value: Option<Value<'_>>) -> Option<Policy>
    ensures { result ≡ policy_or_exact value.entry }
{
    let Some(value) = value else {
        return Some(Policy::Exact);
    };
    match value.seen() {
        Seen::Null => Some(Policy::Exact),
        Seen::Text(name) => policy_named(name),
        _ => None,
    }
}

/// The policy that the options name, as of [`policy_of`].
pub(crate) fn policy_in(options: &Dict) -> Option<Policy>
    ensures { result ≡ match_of (dict_view options.now) }
{
    match options.get("match") {
        None => Some(Policy::Exact),
        Some(Tree::Null) => Some(Policy::Exact),
        Some(Tree::Text(name)) => policy_named(name.as_str()),
        Some(_) => None,
    }
}

/// The policy of this name.
fn policy_named(name: &str) -> Option<Policy>
    ensures { result ≡ policy_named name.now }
{
    if name == "exact" {
        Some(Policy::Exact)
    } else if name == "prefix" {
        Some(Policy::Prefix)
    } else if name == "wildcard" {
        Some(Policy::Wildcard)
    } else {
        None
    }
}
