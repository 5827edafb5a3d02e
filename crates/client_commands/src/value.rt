//! Words as values.
ghost use Rattle.std.specs.Prelude.{IfOk};
ghost use Rattle.message_tree.specs.View.{view};
ghost use Rattle.client_commands.specs.Values.{IsValueOf};

use message_tree::Tree;
use std::alloc::{AllocError, Global};

/// A word as a value: what it is in JSON, and else a text. A number that isn't whole is JSON, and is uncarried; what nests more
/// than 100 levels is a text.
///
/// # Errors
/// [`AllocError`] where a growth was refused.
pub fn value_of(alloc: Global, word: &str) -> Result<Tree, AllocError>
    ensures value { IfOk result (λ t. IsValueOf word.now (view t)) }
{
    match json_codec::decode(alloc, word.as_bytes()) {
        Ok(message) => Ok(message.into_tree()),
        Err(json_codec::Fault::NoMemory) => Err(AllocError),
        Err(_) => Ok(Tree::Text(String::from_str(alloc, word)?)),
    }
}
