//! A line of a replay: who says it, and what.
ghost use Rattle.std.specs.Prelude.{◌≡◌, ◌≤◌, true, option_map, IfSome};
ghost use Rattle.replay.specs.Lines.{at_most_256, at_space, goes_on, is_number, line_of, number_in};

use wamp_ids::Conn;

/// How many octets a line may have, without its LF.
pub const LONGEST: usize = 1048576;

/// The greatest number that a line may have.
const GREATEST: u64 = 256;

/// A line of a replay.
#[derive(Drop)]
pub struct Line<'a> {
    /// The number of the connection, from 1 to 256.
    pub number: Conn,
    /// What it says. It isn't empty.
    pub text: &'a [u8],
}

/// What stands before the first space, and what stands after it.
fn at_space(octets: &[u8]) -> Option<(&[u8], &[u8])>
    ensures { option_map (λ p. (p.0.now, p.1.now)) result ≡ at_space octets.now }
{
    for i in 0..octets.len() {
        if octets[i] == b' ' {
            return Some((&octets[..i], &octets[i + 1..]));
        }
    }
    None
}

/// The number that the digits go on to, where it is at most 256.
fn goes_on(digits: &[u8]) -> Option<u64>
    ensures value { result ≡ at_most_256 (goes_on 0 digits.now) }
    ensures small { IfSome result (λ number. number ≤ 256) }
{
    let mut number: u64 = 0;
    for digit in digits {
        if !digit.is_ascii_digit() {
            return None;
        }
        number = number * 10 + (*digit - b'0') as u64;
        if number > GREATEST {
            return None;
        }
    }
    Some(number)
}

/// A number from 1 to 256 in decimal, without leading zeros.
fn number_in(digits: &[u8]) -> Option<Conn>
    ensures value { result ≡ number_in digits.now }
    ensures range { IfSome result (λ number. is_number number ≡ true) }
{
    if digits.is_empty() || digits[0] == b'0' {
        return None;
    }
    let number = goes_on(digits)?;
    Conn::new(number)
}

/// What a line says; `None` is a bad line.
#[tactic(auto, unfolding(crate::specs::Lines::line_of))]
pub fn read_line(octets: &[u8]) -> Option<Line<'_>>
    ensures value { option_map (λ line. record { number = line.number; text = line.text.now })
        result ≡ line_of octets.now }
    ensures range { IfSome result (λ line. is_number line.number ≡ true) }
{
    if octets.len() > LONGEST {
        return None;
    }
    let (digits, text) = at_space(octets)?;
    let number = number_in(digits)?;
    if text.is_empty() {
        return None;
    }
    Some(Line { number, text })
}
