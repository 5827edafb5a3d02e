//! Octets that are a text.
ghost use Rattle.std.specs.Prelude.{◌≡◌, IfOk, OnErr, IsUtf8, true};
ghost use Rattle.std.specs.Str.{IsAscii};

/// Octets that aren't UTF-8.
#[derive(Clone, Copy, Debug, Drop)]
pub(crate) struct NotUtf8;

/// Whether each octet is one of ASCII, as in most texts. It stops nowhere before the end, so that many octets are looked at at once: it
/// takes far less time than to tell UTF-8.
#[inline(always)]
pub fn is_ascii(octets: &[u8]) -> bool
    ensures { result ≡ true → IsAscii octets.now }
{
    let mut bits = 0;
    for octet in octets {
        bits |= *octet;
    }
    bits < 0x80
}

/// The text that octets are. Most texts are ASCII, which is told much faster than UTF-8.
pub(crate) fn text_in(octets: &[u8]) -> Result<&str, NotUtf8>
    ensures ok { IfOk result (λ s. (s.now ≡ octets.now) × IsUtf8 octets.now) }
    ensures err { OnErr result (IsUtf8 octets.now → ⊥) }
{
    if is_ascii(octets) {
        return Ok(unsafe { std::str::from_utf8_unchecked(octets) });
    }
    match str::from_utf8(octets) {
        Ok(text) => Ok(text),
        Err(_) => Err(NotUtf8),
    }
}
