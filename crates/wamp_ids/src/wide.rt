//! White space beyond ASCII, by octets. In UTF-8 it takes two octets or three, and no others have
//! these values in a row, so each octet is looked at with the two before it; but most texts have no
//! octet that begins it. No loop here leaves before the end, so that many octets are looked at at
//! once.
ghost use Rattle.std.specs.Prelude.{◌≡◌, ◌==◌, not};
ghost use Rattle.std.specs.List.{list_any};
ghost use Rattle.wamp_ids.specs.Octets.{ends_space, has_space, is_general_space, is_space_of_three, is_space_of_two, leads_space};

/// Whether a text has white space beyond ASCII.
pub(crate) fn has_space(octets: &[u8]) -> bool
    ensures { result ≡ has_space 0 0 octets.now }
{
    if any_leads_space(octets) {
        any_ends_space(octets)
    } else {
        false
    }
}

/// Whether an octet may begin white space beyond ASCII.
fn any_leads_space(octets: &[u8]) -> bool
    ensures { result ≡ list_any leads_space octets.now }
{
    let mut found = 0;
    for octet in octets {
        found |= lead_mark(*octet);
    }
    found != 0
}

/// Whether an octet, behind the two before it, ends white space beyond ASCII.
fn any_ends_space(octets: &[u8]) -> bool
    ensures { result ≡ has_space 0 0 octets.now }
{
    let mut found = false;
    let mut first = 0;
    let mut before = 0;
    for octet in octets {
        let octet = *octet;
        found |= ends_space(first, before, octet);
        first = before;
        before = octet;
    }
    found
}

/// 0 where an octet begins no white space beyond ASCII. As a number, so that the loop isn't made one
/// that leaves at the first of them.
fn lead_mark(octet: u8) -> u8
    ensures { (result == 0) ≡ not (leads_space octet) }
{
    ((octet == 0xc2) | ((octet > 0xe0) & (octet < 0xe4))) as u8
}

/// Whether an octet, behind the two before it, ends white space beyond ASCII.
fn ends_space(first: u8, before: u8, octet: u8) -> bool
    ensures { result ≡ ends_space first before octet }
{
    is_space_of_two(before, octet) | is_space_of_three(first, before, octet)
}

/// Whether two octets are U+0085 or U+00A0.
fn is_space_of_two(before: u8, octet: u8) -> bool
    ensures { result ≡ is_space_of_two before octet }
{
    (before == 0xc2) & ((octet == 0x85) | (octet == 0xa0))
}

/// Whether three octets are white space: those behind 0xe2, U+1680 or U+3000.
fn is_space_of_three(first: u8, before: u8, octet: u8) -> bool
    ensures { result ≡ is_space_of_three first before octet }
{
    ((first == 0xe2) & is_general_space(before, octet))
        | (((first == 0xe1) & ((before == 0x9a) & (octet == 0x80)))
            | ((first == 0xe3) & ((before == 0x80) & (octet == 0x80))))
}

/// Whether two octets behind 0xe2 are white space: U+2000 to U+200A, U+2028, U+2029, U+202F, U+205F.
fn is_general_space(before: u8, octet: u8) -> bool
    ensures { result ≡ is_general_space before octet }
{
    ((before == 0x80)
        & (((octet > 0x7f) & (octet < 0x8b))
            | ((octet == 0xa8) | ((octet == 0xa9) | (octet == 0xaf)))))
        | ((before == 0x81) & (octet == 0x9f))
}
