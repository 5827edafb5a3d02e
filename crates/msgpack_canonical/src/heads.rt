//! The shortest heads of bins, arrays and maps.
ghost use Rattle.std.specs.Prelude.{◌≡◌, ◌<◌, ◌^◌, ◌++◌, OnOk, IfOk, nat_lt, true};
ghost use Rattle.msgpack_codec.specs.Short.{bytes_head, list_head, dict_head};
ghost use Rattle.msgpack_canonical.specs.body.Fitting.{counted};

use message_tree::Appender;
use std::alloc::AllocError;

/// A count behind a mark: in two octets, or in four behind the next mark.
fn put_counted(out: &mut Appender, mark: u8, count: u32) -> Result<(), AllocError>
    requires { mark < 255 }
    ensures ok { OnOk result (out.new.since ≡ out.old.since ++ counted mark count) }
    ensures before { out.new.before ≡ out.old.before }
{
    if count < 0x1_0000 {
        out.put(mark)?;
        out.put_all(&(count as u16).to_be_bytes())?;
    } else {
        out.put(mark + 1)?;
        out.put_all(&count.to_be_bytes())?;
    }
    Ok(())
}

/// The head of a bin of so many octets.
#[tactic(auto, unfolding(msgpack_codec::specs::Short::bytes_head))]
pub(crate) fn put_bytes_head(out: &mut Appender, count: u32) -> Result<(), AllocError>
    ensures ok { OnOk result (out.new.since ≡ out.old.since ++ bytes_head count) }
    ensures before { out.new.before ≡ out.old.before }
{
    if count < 0x100 {
        out.put_all(&[0xc4, count as u8])
    } else {
        put_counted(out, 0xc5, count)
    }
}

/// The head of an array of so many values.
#[tactic(auto, unfolding(msgpack_codec::specs::Short::list_head))]
fn put_list_head(out: &mut Appender, count: u32) -> Result<(), AllocError>
    ensures ok { OnOk result (out.new.since ≡ out.old.since ++ list_head count) }
    ensures before { out.new.before ≡ out.old.before }
{
    if count < 16 {
        out.put(0x90 + count as u8)
    } else {
        put_counted(out, 0xdc, count)
    }
}

/// The same, where there are fewer than 2^32 values; and whether there are.
pub(crate) fn put_fitting_list_head(out: &mut Appender, count: u64) -> Result<bool, AllocError>
    ensures fits { IfOk result (λ b. b ≡ nat_lt count (2 ^ 32)) }
    ensures ok { IfOk result (λ b. b ≡ true → out.new.since ≡ out.old.since ++ list_head count) }
    ensures before { out.new.before ≡ out.old.before }
{
    if count >= 0x1_0000_0000 {
        return Ok(false);
    }
    put_list_head(out, count as u32)?;
    Ok(true)
}

/// The head of a map of so many entries.
#[tactic(auto, unfolding(msgpack_codec::specs::Short::dict_head))]
pub(crate) fn put_dict_head(out: &mut Appender, count: u32) -> Result<(), AllocError>
    ensures ok { OnOk result (out.new.since ≡ out.old.since ++ dict_head count) }
    ensures before { out.new.before ≡ out.old.before }
{
    if count < 16 {
        out.put(0x80 + count as u8)
    } else {
        put_counted(out, 0xde, count)
    }
}
