//! Whether two texts begin with the same octets, of which there are mostly few: up to 8 of them are compared as one number, so
//! that no branch depends on how many they are.
ghost use Rattle.std.specs.Prelude.{◌≡◌, ◌≤◌, ◌<◌, ◌+◌, ◌^◌, ℕ, get_or, true, take, length};
ghost use Rattle.std.specs.Str.{bytes_eq};
ghost use Rattle.subscription_index.specs.body.Words.{worth};

/// So many octets are a word.
const WORD: usize = 8;

/// The greatest number of no octet, of one, and so on.
const MOST: [u64; 9] = [
    0,
    0xff,
    0xffff,
    0xff_ffff,
    0xffff_ffff,
    0xff_ffff_ffff,
    0xffff_ffff_ffff,
    0xff_ffff_ffff_ffff,
    u64::MAX,
];

/// The greatest number of so many octets. It is looked up, since a branch on their count would be guessed wrong.
fn most_of(count: usize) -> u64
    requires { count ≤ 8 }
    ensures { result + 1 ≡ 256 ^ count }
{
    MOST[count]
}

/// The first octets of a text, so many, as a number.
fn word_of(octets: &[u8], count: usize) -> u64
    requires long { 8 ≤ length octets.now }
    requires few { count ≤ 8 }
    ensures word { result ≡ worth (take count octets.now) }
    ensures octets { (i : ℕ) → get_or octets.now i 0 < 256 }
{
    let first = &octets[..WORD];
    let word = u64::from_le_bytes([
        first[0], first[1], first[2], first[3], first[4], first[5], first[6], first[7],
    ]);
    word & most_of(count)
}

/// Whether two texts begin with the same octets, so many.
pub(crate) fn begin_alike(one: &[u8], other: &[u8], count: usize) -> bool
    requires one { 8 ≤ length one.now }
    requires other { 8 ≤ length other.now }
    requires within { count ≤ length other.now }
    ensures alike { result ≡ bytes_eq (take count one.now) (take count other.now) }
    ensures within { result ≡ true → count ≤ length one.now }
{
    if count <= WORD {
        return word_of(one, count) == word_of(other, count);
    }
    count <= one.len() && one[..count] == other[..count]
}
