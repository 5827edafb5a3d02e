//! The arguments of publications.
ghost use Rattle.std.specs.Prelude.{◌≡◌, ◌≢◌, ◌⊎◌, IfOk, IfErr, Err, None, Some, false, true};
ghost use Rattle.message_tree.specs.View.{view};
ghost use Rattle.message_tree.specs.Data.{is_carried, list, item, no_items};
ghost use Rattle.wamp_messages.specs.Arguments.{is_args, is_kwargs};
ghost use Rattle.client_commands.specs.Ends.{AreUncarried, IsUnread, arguments_of};
ghost use Rattle.client_commands.specs.Faults.{IsOfBroker, IsOfHere, is_blamed};
ghost use Rattle.client_commands.specs.Lines.{IsArgumentsOfLine};

use crate::fault::Fault;
use crate::value::value_of;
use client_session::Args;
use message_tree::{Content, Tree};
use std::alloc::Global;

/// How deep arguments may nest, so that a message has room for them.
const DEEPEST: usize = 99;

/// Whether a message can carry this: a list.
fn is_list(content: &Content) -> bool
    ensures list { result ≡ true → is_args content.now ≡ true }
    ensures other { result ≡ false → is_args content.now ≡ true → is_carried content.now ≡ false }
{
    match content.tree() {
        Tree::List(_) => true,
        _ => false,
    }
}

/// Whether it is a dictionary.
fn is_dictionary(content: &Content) -> bool
    ensures dictionary { result ≡ true → is_kwargs content.now ≡ true }
    ensures other { result ≡ false → is_kwargs content.now ≡ true → is_carried content.now ≡ false }
{
    match content.tree() {
        Tree::Dict(_) => true,
        _ => false,
    }
}

/// Arguments and perhaps what is named by keys, as a message carries them.
///
/// # Errors
/// [`Fault::Usage`] where no message does, [`Fault::NoMemory`].
pub(crate) fn args_of(alloc: Global, args: Content, kwargs: &Option<Content>) -> Result<Args, Fault>
    ensures carried { IfOk result (λ a. a ≡ arguments_of args kwargs.now) }
    ensures uncarried { result ≡ Err Fault.Usage → AreUncarried (arguments_of args kwargs.now) }
    ensures fault { IfErr result (λ f. (f ≡ Fault.NoMemory) ⊎ (f ≡ Fault.Usage)) }
    ensures here { IfErr result IsOfHere }
    ensures aside { IfErr result IsOfBroker }
{
    if !is_list(&args) || args.depth() > DEEPEST || !args.is_carried() {
        return Err(Fault::Usage);
    }
    match kwargs {
        None => Ok(Args::positional(alloc, args)?),
        Some(kwargs) => {
            if !is_dictionary(kwargs) || kwargs.depth() > DEEPEST || !kwargs.is_carried() {
                return Err(Fault::Usage);
            }
            let kwargs = kwargs.try_copy(alloc)?;
            Ok(Args::both(alloc, args, kwargs)?)
        }
    }
}

/// The arguments that a line of input is, the line with this number.
///
/// # Errors
/// [`Fault::BadLine`] where it is no UTF-8 or no message carries it, [`Fault::NoMemory`].
pub(crate) fn args_of_line(
    alloc: Global,
    line: &[u8],
    number: u64,
    kwargs: &Option<Content>,
) -> Result<Args, Fault>
    ensures carried { IfOk result (λ a. IsArgumentsOfLine kwargs.now line.now a) }
    ensures unread { IfErr result (λ f. is_blamed f ≡ true
        → (f ≡ Fault.BadLine number) × IsUnread kwargs.now line.now) }
    ensures here { IfErr result IsOfHere }
    ensures aside { IfErr result IsOfBroker }
{
    let Ok(text) = str::from_utf8(line) else {
        return Err(Fault::BadLine(number));
    };
    let value = value_of(alloc, text)?;
    let args = Content::of(Tree::List(vec![in alloc; value]?));
    match args_of(alloc, args, kwargs) {
        Ok(args) => Ok(args),
        Err(Fault::Usage) => Err(Fault::BadLine(number)),
        Err(_) => Err(Fault::NoMemory),
    }
}
