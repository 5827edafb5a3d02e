//! Short values with nothing inside that are no texts.
ghost use Rattle.std.specs.Prelude.{IfSome};
ghost use Rattle.msgpack_codec.specs.ShortLeaves.{BeginsPlainly};

use crate::decoder::number_in_four;

/// The least number whose least spelling has four octets behind the first.
const LEAST_IN_FOUR: u32 = 0x1_0000;

/// The octets after the value at the front, where it is nil, a flag, a whole number from 0 to 127, or one from 2^16 to 2^32 - 1, as a
/// time in seconds is, and is spelled as `encode` writes it. `None` says nothing: it is for who reads the value otherwise then, and
/// spares most values the longer way.
#[inline(always)]
pub fn short_leaf(octets: &[u8]) -> Option<&[u8]>
    ensures { IfSome result (λ rest. BeginsPlainly octets.now rest.now) }
{
    let Some((first, behind)) = octets.split_first() else {
        return None;
    };
    if *first < 0x80 {
        return Some(behind);
    }
    match *first {
        0xc0 => Some(behind),
        0xc2 => Some(behind),
        0xc3 => Some(behind),
        0xce => match number_in_four(behind) {
            Some((number, rest)) if number >= LEAST_IN_FOUR => Some(rest),
            _ => None,
        },
        _ => None,
    }
}
