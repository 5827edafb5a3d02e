//! Arguments that can be carried.
ghost use Rattle.std.specs.Prelude.{◌≡◌, ◌↔◌, IsOk, IfOk, IfErr, true};
ghost use Rattle.arguments.specs.Arguments.{is_all_carried};

use crate::args::Args;
use std::alloc::{AllocError, Global};
use std::marker::Model;

/// Arguments in which nothing is uncarried. JSON writes each of them; MessagePack has no spelling
/// where a text, byte string, list or dictionary in them has 2^32 or more octets or members.
#[derive(Drop)]
pub struct CarriedArgs {
    args: Args,
}

impl Model for CarriedArgs {
    ghost use Rattle.std.specs.Prelude.{◌≡◌, true};
    ghost use Rattle.arguments.specs.Arguments.{Arguments, is_all_carried, arguments_code};

    ghost Value = { Arguments };

    ghost coded = { arguments_code };

    ghost view = { λ a. a.args };

    ghost invariant = { λ a. is_all_carried a.args ≡ true };
}

impl CarriedArgs {
    /// These arguments, where nothing in them is uncarried; else they come back.
    pub fn of(args: Args) -> Result<CarriedArgs, Args>
        ensures ok { IfOk result (λ carried. carried ≡ args) }
        ensures err { IfErr result (λ back. back ≡ args) }
        ensures carried { IsOk result ↔ (is_all_carried args ≡ true) }
    {
        if args.is_carried() {
            Ok(CarriedArgs { args })
        } else {
            Err(args)
        }
    }

    /// The arguments.
    pub fn args(&self) -> &Args
        ensures same { result.now ≡ self.now }
        ensures carried { is_all_carried self.now ≡ true }
    {
        &self.args
    }

    /// Whether what they are in JSON is kept beside them ([`Args::with_json`]).
    pub fn keeps_json(&self) -> bool {
        self.args.keeps_json()
    }

    /// Equal ones, in memory of their own, with nothing beside them.
    ///
    /// # Errors
    /// [`AllocError`] where a growth was refused.
    pub fn try_copy(&self, alloc: Global) -> Result<CarriedArgs, AllocError>
        ensures { IfOk result (λ copy. copy ≡ self.now) }
    {
        Ok(CarriedArgs {
            args: self.args.try_copy(alloc)?,
        })
    }
}
