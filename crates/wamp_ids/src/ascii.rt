//! Faults of ASCII in a text, by its octets. No loop here leaves before the end, so that many octets
//! are looked at at once: a long text costs an instruction or two an octet.
ghost use Rattle.std.specs.Prelude.{◌≡◌, ◌==◌, ◌||◌, ◌&&◌, not, nat_lt, true, false, IfSome, IfNone, Some, None, if◌then◌else◌};
ghost use Rattle.wamp_ids.specs.Octets.{passes, has_space};
ghost use Rattle.wamp_ids.specs.Uri.{is_plain};

/// Whether a text is a topic; `None` where it is one unless it has white space beyond ASCII, and it
/// isn't of ASCII.
pub(crate) fn is_topic_so_far(octets: &[u8]) -> Option<bool>
    ensures some { IfSome result (λ is.
        is ≡ passes true 46 octets.now && not (has_space 0 0 octets.now)) }
    ensures none { IfNone result (passes true 46 octets.now ≡ true) }
{
    let mut wide = false;
    let mut faults = 0;
    let mut before = b'.';
    for octet in octets {
        let octet = *octet;
        wide |= octet > 0x7f;
        faults |= fault_behind(before, octet);
        before = octet;
    }
    answer((faults == 0) & (before != b'.'), wide)
}

/// Whether each component of a text is free of white space and `#`; `None` where it is unless it has
/// white space beyond ASCII, and it isn't of ASCII.
pub(crate) fn is_loose_so_far(octets: &[u8]) -> Option<bool>
    ensures some { IfSome result (λ is.
        is ≡ passes false 0 octets.now && not (has_space 0 0 octets.now)) }
    ensures none { IfNone result (passes false 0 octets.now ≡ true) }
{
    let mut wide = false;
    let mut faults = 0;
    for octet in octets {
        wide |= *octet > 0x7f;
        faults |= fault_at(*octet);
    }
    answer(faults == 0, wide)
}

/// What a text is that has no fault of ASCII or has one, and is of ASCII or is wide.
fn answer(good: bool, wide: bool) -> Option<bool>
    ensures { result ≡ if good && wide then None else Some good }
{
    if good & wide { None } else { Some(good) }
}

/// 0 where an octet may stand behind the octet before, and ends no empty component.
fn fault_behind(before: u8, octet: u8) -> u8
    ensures { (result == 0)
        ≡ (nat_lt 127 octet || is_plain octet) && not (before == 46 && octet == 46) }
{
    fault_at(octet) | fault_of_dots(before, octet)
}

/// 0 where an octet is no white space of ASCII and no `#`.
fn fault_at(octet: u8) -> u8
    ensures { (result == 0) ≡ nat_lt 127 octet || is_plain octet }
{
    (((octet > 8) & (octet < 14)) | (octet == b' ') | (octet == b'#')) as u8
}

/// 0 where one of two octets is no dot.
fn fault_of_dots(before: u8, octet: u8) -> u8
    ensures { (result == 0) ≡ not (before == 46 && octet == 46) }
{
    ((before == b'.') & (octet == b'.')) as u8
}
