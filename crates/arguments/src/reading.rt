//! Arguments from the elements of a message.
ghost use Rattle.std.specs.Prelude.{◌≡◌, ◌≤◌, ◌&&◌, ◌⊎◌, IfOk, IfErr, None, Some};
ghost use Rattle.message_tree.specs.Data.{depth};
ghost use Rattle.arguments.specs.Reading.{read_from};
ghost use Rattle.arguments.specs.body.KeptArguments.{IsGiven, arguments_in};

use crate::buffer::buffer;
use crate::fault::Fault;
use crate::held::HeldArguments;
use crate::parts::{put_args, put_kwargs, put_spelled_args, put_spelled_kwargs};
use message_tree::Octets;
use msgpack_cursor::Value;
use std::alloc::Global;

fn both(one: bool, other: bool) -> bool
    ensures { result ≡ (one && other) }
{
    one && other
}

/// Arguments alone.
pub(crate) fn read_one(alloc: Global, args: &Value) -> Result<HeldArguments, Fault>
    requires { depth args.now ≤ 99 }
    ensures ok { IfOk result (λ g. read_from args.now None ≡ Some (arguments_in g)) }
    ensures given { IfOk result IsGiven }
    ensures shape { result ≡ Err Fault.Shape → read_from args.now None ≡ None }
    ensures fault { IfErr result (λ f. (f ≡ Fault.NoMemory) ⊎ (f ≡ Fault.Shape)) }
{
    let mut out = buffer(alloc, args.spelling().octets.len())?;
    if put_args(alloc, args, &mut out)? {
        return Ok(HeldArguments::Written {
            octets: Octets::from_vec(out.into_vec()),
            has_kwargs: false,
        });
    }
    let mut out = buffer(alloc, args.spelling().octets.len())?;
    put_spelled_args(args, &mut out)?;
    Ok(HeldArguments::Spelled {
        octets: Octets::from_vec(out.into_vec()),
        has_kwargs: false,
    })
}

/// Arguments and ArgumentsKw.
pub(crate) fn read_two(alloc: Global, args: &Value, kwargs: &Value) -> Result<HeldArguments, Fault>
    requires args { depth args.now ≤ 99 }
    requires kwargs { depth kwargs.now ≤ 99 }
    ensures ok { IfOk result (λ g. read_from args.now (Some kwargs.now) ≡ Some (arguments_in g)) }
    ensures given { IfOk result IsGiven }
    ensures shape { result ≡ Err Fault.Shape → read_from args.now (Some kwargs.now) ≡ None }
    ensures fault { IfErr result (λ f. (f ≡ Fault.NoMemory) ⊎ (f ≡ Fault.Shape)) }
{
    let first = args.spelling().octets;
    let second = kwargs.spelling().octets;
    let mut out = buffer(alloc, first.len().saturating_add(second.len()))?;
    let args_put = put_args(alloc, args, &mut out)?;
    let kwargs_put = put_kwargs(alloc, kwargs, &mut out)?;
    if both(args_put, kwargs_put) {
        return Ok(HeldArguments::Written {
            octets: Octets::from_vec(out.into_vec()),
            has_kwargs: true,
        });
    }
    let mut out = buffer(alloc, first.len().saturating_add(second.len()))?;
    put_spelled_args(args, &mut out)?;
    put_spelled_kwargs(kwargs, &mut out)?;
    Ok(HeldArguments::Spelled {
        octets: Octets::from_vec(out.into_vec()),
        has_kwargs: true,
    })
}
