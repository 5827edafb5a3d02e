//! The arguments of a publication.
ghost use Rattle.std.specs.Prelude.{◌≡◌, ◌≤◌, ◌++◌, ◌⊎◌, None, Some, IfOk, IfErr, IfSome, OnOk, true, false};
ghost use Rattle.message_tree.specs.Data.{depth};
ghost use Rattle.msgpack_codec.specs.Short.{item_count};
ghost use Rattle.arguments.specs.Arguments.{FitMessages, is_all_carried, is_args, is_kwargs, last_items};
ghost use Rattle.arguments.specs.Endings.{IsEnding, further, items_have_spelling};
ghost use Rattle.arguments.specs.Reading.{read_from};
ghost use Rattle.arguments.specs.body.KeptArguments.{IsGiven, arguments_in};

use crate::fault::Fault;
use crate::held::{Decoded, HeldArguments};
use crate::reading::{read_one, read_two};
use crate::writing::json_ending;
use message_tree::{Appender, Content, Octets};
use msgpack_cursor::Value;
use rawsocket::Serializer;
use std::alloc::{AllocError, Global};
use std::marker::Model;

/// Arguments that are there, and what they are at the end of a message in JSON, where that is kept.
#[derive(Drop)]
struct KeptArguments {
    given: HeldArguments,
    json: Option<Octets>,
}

/// The arguments of a publication, as they came: Arguments and ArgumentsKw, each where it was given.
/// Arguments is a list, ArgumentsKw a dictionary, or either is uncarried as a whole. Each nests at
/// most 99 levels, and there is no ArgumentsKw without Arguments.
///
/// Where MessagePack has a spelling for them, its octets are all that is kept, and beside them those
/// of JSON once they were asked for. What is uncarried stays in the octets that spelled it, where it
/// came in MessagePack. No contract shows which.
///
/// They stand in one box, so that they are moved as one pointer; no arguments take no memory.
#[derive(Drop)]
pub struct Args {
    held: Option<Box<KeptArguments>>,
}

impl Model for Args {
    ghost use Rattle.std.specs.Option.{option_map, option_and_then};
    ghost use Rattle.arguments.specs.Arguments.{Arguments, arguments_code};
    ghost use Rattle.arguments.specs.body.KeptArguments.{AreHeldIfAny, held_arguments};

    ghost Value = { Arguments };

    ghost coded = { arguments_code };

    ghost view = { λ a. held_arguments (option_map (λ h. h.value.given) a.held) };

    ghost invariant = { λ a. AreHeldIfAny (option_map (λ h. h.value.given) a.held)
        (option_and_then (λ h. h.value.json) a.held) };
}

impl Args {
    fn hold(alloc: Global, given: HeldArguments) -> Result<Args, AllocError>
        requires fit { FitMessages (arguments_in given) }
        requires given { IsGiven given }
        ensures { IfOk result (λ a. a ≡ arguments_in given) }
    {
        Ok(Args {
            held: Some(Box::new(alloc, KeptArguments { given, json: None })?),
        })
    }

    /// No arguments.
    pub fn none() -> Args
        ensures { result ≡ record { args = None; kwargs = None } }
    {
        Args { held: None }
    }

    /// Arguments alone.
    ///
    /// # Errors
    /// [`AllocError`] where a growth was refused; the arguments are dropped then.
    pub fn positional(alloc: Global, args: Content) -> Result<Args, AllocError>
        requires kind { is_args args ≡ true }
        requires shallow { depth args ≤ 99 }
        ensures { IfOk result (λ a. a ≡ record { args = Some args; kwargs = None }) }
    {
        Args::hold(alloc, HeldArguments::of_trees(alloc, args, None)?)
    }

    /// Arguments and ArgumentsKw.
    ///
    /// # Errors
    /// [`AllocError`] where a growth was refused; both are dropped then.
    pub fn both(alloc: Global, args: Content, kwargs: Content) -> Result<Args, AllocError>
        requires args_kind { is_args args ≡ true }
        requires kwargs_kind { is_kwargs kwargs ≡ true }
        requires args_shallow { depth args ≤ 99 }
        requires kwargs_shallow { depth kwargs ≤ 99 }
        ensures { IfOk result (λ a. a ≡ record { args = Some args; kwargs = Some kwargs }) }
    {
        Args::hold(alloc, HeldArguments::of_trees(alloc, args, Some(kwargs))?)
    }

    /// Arguments alone, from an element of a message: nil counts as no arguments in a list.
    ///
    /// # Errors
    /// [`Fault::Shape`] where the element is neither nil nor a list, unless it is uncarried;
    /// [`Fault::NoMemory`] where a growth was refused.
    pub fn read_args(alloc: Global, args: &Value) -> Result<Args, Fault>
        requires { depth args.now ≤ 99 }
        ensures ok { IfOk result (λ a. read_from args.now None ≡ Some a) }
        ensures shape { result ≡ Err Fault.Shape → read_from args.now None ≡ None }
        ensures fault { IfErr result (λ f. (f ≡ Fault.NoMemory) ⊎ (f ≡ Fault.Shape)) }
    {
        Ok(Args::hold(alloc, read_one(alloc, args)?)?)
    }

    /// Arguments and ArgumentsKw, from two elements of a message: nil counts as an empty list, or an
    /// empty dictionary.
    ///
    /// # Errors
    /// [`Fault::Shape`] where either is of another kind, unless it is uncarried; [`Fault::NoMemory`]
    /// where a growth was refused.
    pub fn read_both(alloc: Global, args: &Value, kwargs: &Value) -> Result<Args, Fault>
        requires args { depth args.now ≤ 99 }
        requires kwargs { depth kwargs.now ≤ 99 }
        ensures ok { IfOk result (λ a. read_from args.now (Some kwargs.now) ≡ Some a) }
        ensures shape { result ≡ Err Fault.Shape → read_from args.now (Some kwargs.now) ≡ None }
        ensures fault { IfErr result (λ f. (f ≡ Fault.NoMemory) ⊎ (f ≡ Fault.Shape)) }
    {
        Ok(Args::hold(alloc, read_two(alloc, args, kwargs)?)?)
    }

    /// How many elements of a message they are: 0, 1 or 2.
    pub fn count(&self) -> u8
        ensures { result ≡ item_count (last_items self.now.args self.now.kwargs) }
    {
        match &self.held {
            None => 0,
            Some(held) => held.given.count(),
        }
    }

    /// They are as a message may have them. This does nothing: a proof calls it for what it ensures.
    pub fn fit(&self)
        ensures { FitMessages self.now }
    {
        let _ = self.held.is_some();
    }

    /// Whether nothing in them is uncarried.
    pub fn is_carried(&self) -> bool
        ensures { result ≡ is_all_carried self.now }
    {
        match &self.held {
            None => true,
            Some(held) => held.given.is_carried(),
        }
    }

    /// The arguments as trees, in memory of their own.
    ///
    /// # Errors
    /// [`AllocError`] where a growth was refused.
    pub fn decoded(&self, alloc: Global) -> Result<Decoded, AllocError>
        ensures args { IfOk result (λ d. d.args ≡ self.now.args) }
        ensures kwargs { IfOk result (λ d. d.kwargs ≡ self.now.kwargs) }
        ensures fit { FitMessages self.now }
    {
        match &self.held {
            None => Ok(Decoded {
                args: None,
                kwargs: None,
            }),
            Some(held) => held.given.decoded(alloc),
        }
    }

    /// The same arguments, with what they are in JSON beside them, unless something in them is
    /// uncarried, or a growth is refused.
    pub fn with_json(mut self, alloc: Global) -> Args
        ensures { result ≡ self }
    {
        self.keep_json(alloc);
        self
    }

    fn keep_json(&mut self, alloc: Global)
        ensures { self.new ≡ self.old }
    {
        if let Some(held) = &mut self.held {
            if held.json.is_none() {
                held.json = json_ending(alloc, &held.given);
            }
        }
    }

    /// Whether what they are in JSON is kept beside them.
    pub(crate) fn keeps_json(&self) -> bool {
        match &self.held {
            None => false,
            Some(held) => held.json.is_some(),
        }
    }

    /// What they are at the end of a message, where that is kept.
    pub fn ending(&self, serializer: Serializer) -> Option<&[u8]>
        ensures { IfSome result (λ octets. IsEnding serializer self.now octets.now) }
    {
        let Some(held) = &self.held else {
            return None;
        };
        match serializer {
            Serializer::Json => match &held.json {
                Some(octets) => Some(octets.as_slice()),
                None => None,
            },
            Serializer::MsgPack => held.given.octets(),
        }
    }

    /// How many octets they are in MessagePack at the end of a message, where that is kept; 0 where it isn't.
    pub fn octets(&self) -> usize {
        match self.ending(Serializer::MsgPack) {
            Some(octets) => octets.len(),
            None => 0,
        }
    }

    /// Writes them at the end of a message, each behind a separator.
    ///
    /// # Errors
    /// [`Fault::TooLong`] where MessagePack has no spelling for them; [`Fault::NoMemory`] where a
    /// growth was refused. What stood in `out` at its start stays.
    pub fn put(
        &self,
        alloc: Global,
        serializer: Serializer,
        out: &mut Appender,
    ) -> Result<(), Fault>
        requires { is_all_carried self.now ≡ true }
        ensures ok { OnOk result (out.new.since ≡ out.old.since
            ++ further serializer (last_items self.now.args self.now.kwargs)) }
        ensures spelled { OnOk result
            (items_have_spelling serializer (last_items self.now.args self.now.kwargs) ≡ true) }
        ensures unspelled { result ≡ Err Fault.TooLong
            → items_have_spelling serializer (last_items self.now.args self.now.kwargs) ≡ false }
        ensures before { out.new.before ≡ out.old.before }
        ensures fault { IfErr result (λ f. (f ≡ Fault.NoMemory) ⊎ (f ≡ Fault.TooLong)) }
    {
        if let Some(octets) = self.ending(serializer) {
            return Ok(out.put_all(octets)?);
        }
        match &self.held {
            None => Ok(()),
            Some(held) => held.given.put(alloc, serializer, out),
        }
    }

    /// Equal ones, in memory of their own.
    ///
    /// # Errors
    /// [`AllocError`] where a growth was refused.
    pub fn try_copy(&self, alloc: Global) -> Result<Args, AllocError>
        ensures ok { IfOk result (λ a. a ≡ self.now) }
    {
        match &self.held {
            None => Ok(Args::none()),
            Some(held) => Args::hold(alloc, held.given.try_copy(alloc)?),
        }
    }
}
