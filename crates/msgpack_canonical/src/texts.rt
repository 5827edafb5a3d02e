//! The text at the front of octets.
ghost use Rattle.std.specs.Prelude.{◌≡◌, ℕ, List, IfSome, IfNone, Ok, false};
ghost use Rattle.message_tree.specs.Data.{Data, text};
ghost use Rattle.msgpack_codec.specs.Values.{is_text};
ghost use Rattle.msgpack_codec.specs.body.Decoder.{value_at};
ghost use Rattle.msgpack_canonical.specs.body.Kinds.{IsNoText};

use msgpack_codec::{Token, first_token, short_text};

/// The text that a token is.
fn text_of(token: Token<'_>) -> Option<&str>
    ensures text { IfSome result (λ s. token.entry ≡ Token.Text s) }
    ensures none { IfNone result (IsNoText token.entry) }
{
    match token {
        Token::Text(text) => Some(text),
        Token::Null
        | Token::Flag(_)
        | Token::Whole(_)
        | Token::Bytes(_)
        | Token::List(_)
        | Token::Dict(_)
        | Token::Uncarried => None,
    }
}

/// The text at the front, and the octets after it; `None` where another value stands there, or none.
#[inline(always)]
pub fn first_text(octets: &[u8]) -> Option<(&str, &[u8])>
    ensures some { IfSome result (λ x. (room : ℕ)
        → value_at room octets.now ≡ Ok (text x.0.now, x.1.now)) }
    ensures none { IfNone result ((room : ℕ) (k : Data) (rest : List ℕ)
        → value_at room octets.now ≡ Ok (k, rest) → is_text k ≡ false) }
{
    match short_text(octets) {
        Some((text, rest)) => Some((text, rest)),
        None => any_text(octets),
    }
}

/// The same of any text.
#[inline(never)]
fn any_text(octets: &[u8]) -> Option<(&str, &[u8])>
    ensures some { IfSome result (λ x. (room : ℕ)
        → value_at room octets.now ≡ Ok (text x.0.now, x.1.now)) }
    ensures none { IfNone result ((room : ℕ) (k : Data) (rest : List ℕ)
        → value_at room octets.now ≡ Ok (k, rest) → is_text k ≡ false) }
{
    let Ok((token, rest)) = first_token(octets) else {
        return None;
    };
    match text_of(token) {
        Some(text) => Some((text, rest)),
        None => None,
    }
}
