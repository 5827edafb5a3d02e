//! Tokens by what they begin.
ghost use Rattle.msgpack_canonical.specs.body.Kinds.{IsKind};

use msgpack_codec::Token;

/// What a token begins: a list or dictionary of so many members, or a value with nothing inside.
#[derive(Clone, Copy, Drop)]
pub(crate) enum TokenKind {
    List(u64),
    Dict(u64),
    Leaf,
}

pub(crate) fn kind_of(token: &Token) -> TokenKind
    ensures { IsKind result token.now }
{
    match token {
        Token::List(count) => TokenKind::List(*count),
        Token::Dict(count) => TokenKind::Dict(*count),
        Token::Null
        | Token::Flag(_)
        | Token::Whole(_)
        | Token::Text(_)
        | Token::Bytes(_)
        | Token::Uncarried => TokenKind::Leaf,
    }
}
