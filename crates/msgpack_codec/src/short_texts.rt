//! Short texts, as most keys and many values are.
ghost use Rattle.std.specs.Prelude.{◌≡◌, ◌<◌, ◌++◌, IfSome, IsUtf8, length};
ghost use Rattle.message_tree.specs.Data.{text};
ghost use Rattle.msgpack_codec.specs.Short.{short};

use crate::utf8::is_ascii;
use std::str::from_utf8_unchecked;

/// The text at the front and the octets after it, where it has fewer than 32 octets, all of ASCII, and is spelled as `encode` writes
/// it. `None` says nothing: it is for who reads the value otherwise then, and spares most texts the longer way.
#[inline(always)]
#[tactic(auto, unfolding(crate::specs::Short::text_head))]
pub fn short_text(octets: &[u8]) -> Option<(&str, &[u8])>
    ensures spelled { IfSome result (λ x. octets.now ≡ short (text x.0.now) ++ x.1.now) }
    ensures utf8 { IfSome result (λ x. IsUtf8 x.0.now) }
    ensures few { IfSome result (λ x. length x.0.now < 32) }
{
    let Some((first, behind)) = octets.split_first() else {
        return None;
    };
    if *first < 0xa0 || *first >= 0xc0 {
        return None;
    }
    let len = (*first - 0xa0) as usize;
    if behind.len() < len {
        return None;
    }
    let (found, rest) = behind.split_at(len);
    if !is_ascii(found) {
        return None;
    }
    Some((unsafe { from_utf8_unchecked(found) }, rest))
}
