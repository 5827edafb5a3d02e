//! Trees of one value, and dictionaries in which each key is set where it is wanted.
ghost use Rattle.std.specs.Prelude.{◌≡◌, IfOk, OnOk, true};
ghost use Rattle.message_tree.specs.Data.{flag, text, dict, put};
ghost use Rattle.message_tree.specs.View.{view, dict_view};
ghost use Rattle.session.specs.ToClient.{number};

use message_tree::{Dict, Options, Text, Tree};
use std::alloc::{AllocError, Global};

/// A whole number as a tree.
pub(crate) fn number(n: u64) -> Tree
    ensures { view result ≡ number n }
{
    Tree::Whole(n as i128)
}

/// A text as a tree, in memory of its own.
pub(crate) fn text(alloc: Global, of: &str) -> Result<Tree, AllocError>
    ensures ok { IfOk result (λ t. view t ≡ text of.now) }
{
    Ok(Tree::Text(String::from_str(alloc, of)?))
}

/// A text as a tree; the text is spent.
pub(crate) fn spent_text(of: Text) -> Tree
    ensures { view result ≡ text of }
{
    Tree::Text(of.into_string())
}

/// The truth value true as a tree.
pub(crate) fn truth() -> Tree
    ensures { view result ≡ flag true }
{
    Tree::Flag(true)
}

/// A dictionary as a tree.
pub(crate) fn dictionary(of: Dict) -> Tree
    ensures { view result ≡ dict (dict_view of) }
{
    Tree::Dict(of)
}

/// Options as a tree; they are spent.
pub(crate) fn spent_options(of: Options) -> Tree
    ensures { view result ≡ dict of }
{
    Tree::Dict(of.into_dict())
}

/// Sets a key.
pub(crate) fn put(alloc: Global, dict: &mut Dict, key: &str, value: Tree) -> Result<(), AllocError>
    ensures ok { OnOk result (dict_view dict.new ≡ put key.now (view value) (dict_view dict.old)) }
{
    let key = String::from_str(alloc, key)?;
    dict.set(alloc, key, value)
}
