//! The table of first octets.
ghost use Rattle.std.specs.Prelude.{◌≡◌, ◌<◌};
ghost use Rattle.msgpack_codec.specs.Format.{form_of as form, marked_form};

/// How many octets a number takes.
#[derive(Clone, Copy, Debug, Drop, PartialEq, Eq)]
pub(crate) enum Width {
    One,
    Two,
    Four,
    Eight,
}

/// Where a length stands: in the first octet, or in the octets after it.
#[derive(Clone, Copy, Debug, Drop, PartialEq, Eq)]
pub(crate) enum Size {
    Here(u8),
    Next(Width),
}

/// What the first octet says of a value.
#[derive(Clone, Copy, Debug, Drop, PartialEq, Eq)]
pub(crate) enum Form {
    Null,
    Flag(bool),
    Whole(i8),
    Unsigned(Width),
    Signed(Width),
    Text(Size),
    Bytes(Size),
    List(Size),
    Dict(Size),
    Foreign(Size),
    Float(Width),
    Never,
}

/// What a first octet says.
#[tactic(auto, unfolding(crate::specs::Format::form_of))]
pub(crate) fn form_of(octet: u8) -> Form
    ensures { result ≡ form octet }
{
    if octet < 0x80 {
        Form::Whole(octet as i8)
    } else if octet < 0x90 {
        Form::Dict(Size::Here(octet - 0x80))
    } else if octet < 0xa0 {
        Form::List(Size::Here(octet - 0x90))
    } else if octet < 0xc0 {
        Form::Text(Size::Here(octet - 0xa0))
    } else if octet < 0xe0 {
        marked_form_of(octet)
    } else {
        Form::Whole((octet as i16 - 0x100) as i8)
    }
}

/// C0 to DF.
fn marked_form_of(octet: u8) -> Form
    requires { octet < 224 }
    ensures { result ≡ marked_form octet }
{
    match octet {
        0xc0 => Form::Null,
        0xc2 => Form::Flag(false),
        0xc3 => Form::Flag(true),
        0xc4 => Form::Bytes(Size::Next(Width::One)),
        0xc5 => Form::Bytes(Size::Next(Width::Two)),
        0xc6 => Form::Bytes(Size::Next(Width::Four)),
        0xc7 => Form::Foreign(Size::Next(Width::One)),
        0xc8 => Form::Foreign(Size::Next(Width::Two)),
        0xc9 => Form::Foreign(Size::Next(Width::Four)),
        0xca => Form::Float(Width::Four),
        0xcb => Form::Float(Width::Eight),
        0xcc => Form::Unsigned(Width::One),
        0xcd => Form::Unsigned(Width::Two),
        0xce => Form::Unsigned(Width::Four),
        0xcf => Form::Unsigned(Width::Eight),
        0xd0 => Form::Signed(Width::One),
        0xd1 => Form::Signed(Width::Two),
        0xd2 => Form::Signed(Width::Four),
        0xd3 => Form::Signed(Width::Eight),
        0xd4 => Form::Foreign(Size::Here(1)),
        0xd5 => Form::Foreign(Size::Here(2)),
        0xd6 => Form::Foreign(Size::Here(4)),
        0xd7 => Form::Foreign(Size::Here(8)),
        0xd8 => Form::Foreign(Size::Here(16)),
        0xd9 => Form::Text(Size::Next(Width::One)),
        0xda => Form::Text(Size::Next(Width::Two)),
        0xdb => Form::Text(Size::Next(Width::Four)),
        0xdc => Form::List(Size::Next(Width::Two)),
        0xdd => Form::List(Size::Next(Width::Four)),
        0xde => Form::Dict(Size::Next(Width::Two)),
        0xdf => Form::Dict(Size::Next(Width::Four)),
        _ => Form::Never,
    }
}
