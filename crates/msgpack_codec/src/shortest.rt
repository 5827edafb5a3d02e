//! Whether octets are the least that spell a value.
ghost use Rattle.std.specs.Prelude.{◌≡◌, ◌^◌, ◌<◌, ◌++◌, ◌∷◌, ◌↔◌, [], ℕ, List, true};
ghost use Rattle.message_tree.specs.Data.{fits_codecs};
ghost use Rattle.msgpack_codec.specs.Short.{text_head, bytes_head, list_head, dict_head, from_zero, below_zero, whole_short};

/// The octets before others, behind which nothing stands.
pub(crate) fn before<'a>(octets: &'a [u8], after: &[u8]) -> &'a [u8]
    ensures { (front : List ℕ) → octets.entry.now ≡ front ++ after.now → result.now ≡ front }
{
    &octets[..octets.len().saturating_sub(after.len())]
}

/// Whether octets are the same. They are few: to compare them one by one takes less than as slices.
fn are_same(octets: &[u8], others: &[u8]) -> bool
    ensures { result ≡ true ↔ (octets.now ≡ others.now) }
{
    if octets.len() != others.len() {
        return false;
    }
    for at in 0..octets.len() {
        if octets[at] != others[at] {
            return false;
        }
    }
    true
}

/// Whether octets are one, and others behind it.
fn are(octets: &[u8], first: u8, others: &[u8]) -> bool
    ensures { result ≡ true ↔ (octets.now ≡ first ∷ others.now) }
{
    match octets.split_first() {
        Some((found, behind)) => *found == first && are_same(behind, others),
        None => false,
    }
}

/// Whether octets are this one.
pub(crate) fn is_one(octets: &[u8], octet: u8) -> bool
    ensures { result ≡ true ↔ (octets.now ≡ octet ∷ []) }
{
    match octets.split_first() {
        Some((found, behind)) => *found == octet && behind.is_empty(),
        None => false,
    }
}

/// Whether octets are the least head of a str of so many octets.
#[tactic(auto, unfolding(crate::specs::Short::text_head))]
pub(crate) fn is_text_head(octets: &[u8], len: u64) -> bool
    ensures { result ≡ true ↔ ((len < 2 ^ 32) × (octets.now ≡ text_head len)) }
{
    if len < 32 {
        is_one(octets, 0xa0 + len as u8)
    } else if len < 0x100 {
        are(octets, 0xd9, &[len as u8])
    } else if len < 0x1_0000 {
        are(octets, 0xda, &(len as u16).to_be_bytes())
    } else if len < 0x1_0000_0000 {
        are(octets, 0xdb, &(len as u32).to_be_bytes())
    } else {
        false
    }
}

/// Whether octets are the least head of a bin of so many octets.
#[tactic(auto, unfolding(crate::specs::Short::bytes_head))]
pub(crate) fn is_bytes_head(octets: &[u8], len: u64) -> bool
    ensures { result ≡ true ↔ ((len < 2 ^ 32) × (octets.now ≡ bytes_head len)) }
{
    if len < 0x100 {
        are(octets, 0xc4, &[len as u8])
    } else if len < 0x1_0000 {
        are(octets, 0xc5, &(len as u16).to_be_bytes())
    } else if len < 0x1_0000_0000 {
        are(octets, 0xc6, &(len as u32).to_be_bytes())
    } else {
        false
    }
}

/// Whether octets are the least head of an array of so many values.
#[tactic(auto, unfolding(crate::specs::Short::list_head))]
pub(crate) fn is_list_head(octets: &[u8], len: u64) -> bool
    ensures { result ≡ true ↔ ((len < 2 ^ 32) × (octets.now ≡ list_head len)) }
{
    if len < 16 {
        is_one(octets, 0x90 + len as u8)
    } else if len < 0x1_0000 {
        are(octets, 0xdc, &(len as u16).to_be_bytes())
    } else if len < 0x1_0000_0000 {
        are(octets, 0xdd, &(len as u32).to_be_bytes())
    } else {
        false
    }
}

/// Whether octets are the least head of a map of so many pairs.
#[tactic(auto, unfolding(crate::specs::Short::dict_head))]
pub(crate) fn is_dict_head(octets: &[u8], len: u64) -> bool
    ensures { result ≡ true ↔ ((len < 2 ^ 32) × (octets.now ≡ dict_head len)) }
{
    if len < 16 {
        is_one(octets, 0x80 + len as u8)
    } else if len < 0x1_0000 {
        are(octets, 0xde, &(len as u16).to_be_bytes())
    } else if len < 0x1_0000_0000 {
        are(octets, 0xdf, &(len as u32).to_be_bytes())
    } else {
        false
    }
}

/// Whether octets are the least that spell a number from 0.
#[tactic(auto, unfolding(crate::specs::Short::from_zero))]
fn is_from_zero(octets: &[u8], number: u64) -> bool
    ensures { result ≡ true ↔ (octets.now ≡ from_zero number) }
{
    if number < 0x80 {
        is_one(octets, number as u8)
    } else if number < 0x100 {
        are(octets, 0xcc, &[number as u8])
    } else if number < 0x1_0000 {
        are(octets, 0xcd, &(number as u16).to_be_bytes())
    } else if number < 0x1_0000_0000 {
        are(octets, 0xce, &(number as u32).to_be_bytes())
    } else {
        are(octets, 0xcf, &number.to_be_bytes())
    }
}

/// Whether octets are the least that spell the number -(below + 1).
#[tactic(auto, unfolding(crate::specs::Short::below_zero))]
fn is_below_zero(octets: &[u8], below: u64) -> bool
    requires { below < 2 ^ 63 }
    ensures { result ≡ true ↔ (octets.now ≡ below_zero below) }
{
    if below < 0x20 {
        is_one(octets, 0xff - below as u8)
    } else if below < 0x80 {
        are(octets, 0xd0, &[0xff - below as u8])
    } else if below < 0x8000 {
        are(octets, 0xd1, &(0xffff - below as u16).to_be_bytes())
    } else if below < 0x8000_0000 {
        are(octets, 0xd2, &(0xffff_ffff - below as u32).to_be_bytes())
    } else {
        are(octets, 0xd3, &(u64::MAX - below).to_be_bytes())
    }
}

/// Whether octets are the least that spell a whole number.
pub(crate) fn is_whole(octets: &[u8], number: i128) -> bool
    ensures { result ≡ true
        ↔ ((fits_codecs number ≡ true) × (octets.now ≡ whole_short number)) }
{
    if number < i64::MIN as i128 || number > u64::MAX as i128 {
        false
    } else if number < 0 {
        is_below_zero(octets, (-1 - number) as u64)
    } else {
        is_from_zero(octets, number as u64)
    }
}
