//! Arguments as they are held.
ghost use Rattle.std.specs.Prelude.{◌≡◌, ◌≤◌, IfOk, IfSome, None, Some, true};
ghost use Rattle.message_tree.specs.Data.{depth};
ghost use Rattle.msgpack_codec.specs.Short.{item_count};
ghost use Rattle.arguments.specs.Arguments.{FitMessages, IsShallow, is_all_carried, is_carried_if_any, last_items};
ghost use Rattle.msgpack_cursor.specs.Standing.{rest_in};
ghost use Rattle.arguments.specs.body.KeptArguments.{HasFirst, HasValues, IsGiven, arguments_in, first_in, written_in};
ghost use Rattle.arguments.specs.body.Parts.{IsPut, IsPutIfAny, IsWrittenFor};

use crate::buffer::buffer;
use message_tree::{Appender, Content, Octets};
use msgpack_codec::{Fault, encode_into};
use msgpack_cursor::first_value;
use std::alloc::{AllocError, Global};

/// How many levels a value nests at most.
const ROOM: u8 = 100;

/// The octets that are reserved at once: enough for small arguments.
const RESERVED: usize = 64;

/// Arguments that are there.
#[derive(Drop)]
pub(crate) enum HeldArguments {
    /// As trees: something in them is uncarried, or MessagePack has no spelling for it.
    Trees {
        args: Content,
        kwargs: Option<Content>,
    },
    /// As what [`encode`](msgpack_codec::encode) writes for them, one behind the other.
    Written {
        octets: Octets,
        has_kwargs: bool,
    },
    /// As octets of MessagePack that spell them, one behind the other: something in them is
    /// uncarried.
    Spelled {
        octets: Octets,
        has_kwargs: bool,
    },
}

/// Arguments as trees.
#[derive(Drop)]
pub struct Decoded {
    /// Arguments, where they were given.
    pub args: Option<Content>,
    /// ArgumentsKw, where they were given.
    pub kwargs: Option<Content>,
}

/// Writes a tree behind others, where it is carried and MessagePack has a spelling for it.
fn put_tree(content: &Content, out: &mut Appender) -> Result<bool, AllocError>
    requires { depth content.now ≤ 99 }
    ensures ok { IfOk result (λ b. b ≡ true → IsPut content.now true out.old.since out.new.since) }
    ensures before { out.new.before ≡ out.old.before }
{
    if !content.is_carried() {
        return Ok(false);
    }
    match encode_into(content.tree(), out) {
        Ok(()) => Ok(true),
        Err(Fault::NoMemory) => Err(AllocError),
        Err(_) => Ok(false),
    }
}

/// Writes a tree behind others, where there is one.
fn put_tree_if_any(content: &Option<Content>, out: &mut Appender) -> Result<bool, AllocError>
    requires { IsShallow content.now }
    ensures ok { IfOk result (λ b. b ≡ true → IsPutIfAny content.now out.old.since out.new.since) }
    ensures before { out.new.before ≡ out.old.before }
{
    match content {
        None => Ok(true),
        Some(content) => put_tree(content, out),
    }
}

/// What is written for trees, where they are carried and MessagePack has a spelling for them.
fn written(
    alloc: Global,
    args: &Content,
    kwargs: &Option<Content>,
) -> Result<Option<Octets>, AllocError>
    requires args_shallow { depth args.now ≤ 99 }
    requires kwargs_shallow { IsShallow kwargs.now }
    ensures { IfOk result (λ w. IfSome w (λ octets. IsWrittenFor args.now kwargs.now octets)) }
{
    let mut out = buffer(alloc, RESERVED)?;
    if !put_tree(args, &mut out)? {
        return Ok(None);
    }
    if !put_tree_if_any(kwargs, &mut out)? {
        return Ok(None);
    }
    Ok(Some(Octets::from_vec(out.into_vec())))
}

impl HeldArguments {
    /// Trees, as they are best held.
    pub(crate) fn of_trees(
        alloc: Global,
        args: Content,
        kwargs: Option<Content>,
    ) -> Result<HeldArguments, AllocError>
        requires { FitMessages (record { args = Some args; kwargs = kwargs }) }
        ensures same { IfOk result (λ g.
            arguments_in g ≡ record { args = Some args; kwargs = kwargs }) }
        ensures held { IfOk result IsGiven }
    {
        let has_kwargs = kwargs.is_some();
        match written(alloc, &args, &kwargs)? {
            Some(octets) => Ok(HeldArguments::Written { octets, has_kwargs }),
            None => Ok(HeldArguments::Trees { args, kwargs }),
        }
    }

    /// As trees, in memory of their own.
    pub(crate) fn decoded(&self, alloc: Global) -> Result<Decoded, AllocError>
        requires { IsGiven self.now }
        ensures args { IfOk result (λ d. d.args ≡ (arguments_in self.now).args) }
        ensures kwargs { IfOk result (λ d. d.kwargs ≡ (arguments_in self.now).kwargs) }
    {
        match self {
            HeldArguments::Trees { args, kwargs } => Ok(Decoded {
                args: Some(args.try_copy(alloc)?),
                kwargs: copy_if_any(alloc, kwargs)?,
            }),
            HeldArguments::Written { octets, has_kwargs } => {
                trees_in(alloc, octets.as_slice(), *has_kwargs)
            }
            HeldArguments::Spelled { octets, has_kwargs } => {
                trees_in(alloc, octets.as_slice(), *has_kwargs)
            }
        }
    }

    /// Equal ones, in memory of their own.
    pub(crate) fn try_copy(&self, alloc: Global) -> Result<HeldArguments, AllocError>
        ensures { IfOk result (λ g. g ≡ self.now) }
    {
        match self {
            HeldArguments::Trees { args, kwargs } => Ok(HeldArguments::Trees {
                args: args.try_copy(alloc)?,
                kwargs: copy_if_any(alloc, kwargs)?,
            }),
            HeldArguments::Written { octets, has_kwargs } => Ok(HeldArguments::Written {
                octets: octets.try_copy(alloc)?,
                has_kwargs: *has_kwargs,
            }),
            HeldArguments::Spelled { octets, has_kwargs } => Ok(HeldArguments::Spelled {
                octets: octets.try_copy(alloc)?,
                has_kwargs: *has_kwargs,
            }),
        }
    }

    /// How many they are: 1 or 2.
    pub(crate) fn count(&self) -> u8
        ensures { result
            ≡ item_count (last_items (arguments_in self.now).args (arguments_in self.now).kwargs) }
    {
        let has_kwargs = match self {
            HeldArguments::Trees { kwargs, .. } => kwargs.is_some(),
            HeldArguments::Written { has_kwargs, .. } | HeldArguments::Spelled { has_kwargs, .. } =>
                *has_kwargs,
        };
        if has_kwargs { 2 } else { 1 }
    }

    /// Whether nothing in them is uncarried.
    pub(crate) fn is_carried(&self) -> bool
        requires { IsGiven self.now }
        ensures { result ≡ is_all_carried (arguments_in self.now) }
    {
        match self {
            HeldArguments::Trees { args, kwargs } => args.is_carried() && is_carried_if_any(kwargs),
            HeldArguments::Written { .. } => true,
            HeldArguments::Spelled { .. } => false,
        }
    }
}

/// The value at the front as a tree, and the octets after it.
fn first_tree(alloc: Global, octets: &[u8]) -> Result<(Content, &[u8]), AllocError>
    requires { HasFirst octets.now }
    ensures { IfOk result (λ x. (x.0 ≡ first_in octets.now)
        × (x.1.now ≡ rest_in 100 octets.now)) }
{
    let Some((value, rest)) = first_value(octets, ROOM) else {
        unreachable!()
    };
    Ok((Content::of(value.tree(alloc)?), rest))
}

/// What octets spell, as trees.
fn trees_in(alloc: Global, octets: &[u8], has_kwargs: bool) -> Result<Decoded, AllocError>
    requires { HasValues octets.now has_kwargs }
    ensures args { IfOk result (λ d. d.args ≡ (written_in octets.now has_kwargs).args) }
    ensures kwargs { IfOk result (λ d. d.kwargs ≡ (written_in octets.now has_kwargs).kwargs) }
{
    let (args, rest) = first_tree(alloc, octets)?;
    if !has_kwargs {
        return Ok(Decoded {
            args: Some(args),
            kwargs: None,
        });
    }
    let (kwargs, _rest) = first_tree(alloc, rest)?;
    Ok(Decoded {
        args: Some(args),
        kwargs: Some(kwargs),
    })
}

fn copy_if_any(alloc: Global, content: &Option<Content>) -> Result<Option<Content>, AllocError>
    ensures ok { IfOk result (λ copy. copy ≡ content.now) }
{
    match content {
        None => Ok(None),
        Some(content) => Ok(Some(content.try_copy(alloc)?)),
    }
}

fn is_carried_if_any(content: &Option<Content>) -> bool
    ensures { result ≡ is_carried_if_any content.now }
{
    match content {
        None => true,
        Some(content) => content.is_carried(),
    }
}
