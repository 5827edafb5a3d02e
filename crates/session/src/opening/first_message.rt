//! The first message of a session: a HELLO for a realm that is there, or why not.
ghost use Rattle.std.specs.Prelude.{◌≡◌, ◌<◌, ◌↔◌, true, false, None, Some, IfOk, IfErr, IfSome, ◌⊎◌, length, string_bytes, option_map, position};
ghost use Rattle.std.specs.Str.{bytes_eq};
ghost use Rattle.session.specs.FirstMessage.{first_of, is_hello, abort_uri_of, reason_of};

use crate::fault::Fault;
use crate::messages::to_client::uri;
use crate::opening::hello::{Asked, First};
use message_tree::Text;
use wamp_ids::Topic;
use wamp_messages::{Reason, Said};

/// What the first message of a session asks for: a HELLO for one of these realms (WAMP, "Session
/// Establishment"). It takes no memory.
///
/// # Errors
/// [`Fault::Shape`] where it is another message, [`Fault::NoSuchRealm`] where it names none of the
/// realms.
pub fn first(said: Said, realms: &[Topic]) -> Result<First, Fault>
    ensures ok { IfOk result (λ f. first_of said realms.now
        ≡ Some (f.realm, option_map string_bytes f.authid)) }
    ensures in_list { IfOk result (λ f. f.realm < length realms.now) }
    ensures no_such_realm { (result ≡ Err Fault.NoSuchRealm)
        ↔ ((is_hello said ≡ true) × (first_of said realms.now ≡ None)) }
    ensures shape { (result ≡ Err Fault.Shape) ↔ (is_hello said ≡ false) }
    ensures faults { IfErr result (λ fault. (fault ≡ Fault.NoSuchRealm) ⊎ (fault ≡ Fault.Shape)) }
{
    first_noting(said, realms, &mut None)
}

/// The same. Where the realm isn't there, what was asked for stands in `asked`.
///
/// # Errors
/// As for [`first`].
pub(crate) fn first_noting(
    said: Said,
    realms: &[Topic],
    asked: &mut Option<Asked>,
) -> Result<First, Fault>
    ensures ok { IfOk result (λ f. first_of said realms.now
        ≡ Some (f.realm, option_map string_bytes f.authid)) }
    ensures in_list { IfOk result (λ f. f.realm < length realms.now) }
    ensures no_such_realm { (result ≡ Err Fault.NoSuchRealm)
        ↔ ((is_hello said ≡ true) × (first_of said realms.now ≡ None)) }
    ensures shape { (result ≡ Err Fault.Shape) ↔ (is_hello said ≡ false) }
    ensures faults { IfErr result (λ fault. (fault ≡ Fault.NoSuchRealm) ⊎ (fault ≡ Fault.Shape)) }
{
    match said {
        Said::Hello { realm, authid } => match place_of(&realm, realms) {
            Some(place) => Ok(First {
                realm: place,
                authid: string_of(authid),
            }),
            None => {
                *asked = Some(Asked { realm, authid });
                Err(Fault::NoSuchRealm)
            }
        },
        _ => Err(Fault::Shape),
    }
}

/// The reason of the ABORT by which a client is told that its session couldn't be opened, which is
/// [`Item::Abort`] with it; `None` where it isn't told.
///
/// [`Item::Abort`]: crate::Item::Abort
pub fn abort_reason(fault: Fault) -> Option<Reason>
    ensures { result ≡ reason_of fault }
{
    match fault {
        Fault::TooDeep | Fault::Malformed | Fault::FrameTooLong | Fault::FrameType | Fault::Shape =>
            Some(Reason::ProtocolViolation),
        Fault::NoSuchRealm => Some(Reason::NoSuchRealm),
        Fault::NoMemory => None,
        Fault::NotRawSocket | Fault::SerializerUnsupported | Fault::ReservedBits => None,
        Fault::ReadFault | Fault::WriteFault | Fault::TooManyTurns => None,
        Fault::TooLongForClient | Fault::Ended => None,
    }
}

/// The URI of that reason.
pub fn abort_uri(fault: Fault) -> Option<&'static str>
    ensures { option_map (λ uri. uri.now) result ≡ abort_uri_of fault }
{
    match abort_reason(fault) {
        Some(reason) => Some(uri(reason)),
        None => None,
    }
}

/// The place of the first realm with this text.
fn place_of(realm: &Text, realms: &[Topic]) -> Option<usize>
    ensures place { result ≡ position (λ r. bytes_eq r realm.now) realms.now }
    ensures in_list { IfSome result (λ place. place < length realms.now) }
{
    realms
        .iter()
        .position(|topic| topic.text() == realm.as_str())
}

fn string_of(text: Option<Text>) -> Option<String>
    ensures { option_map string_bytes result ≡ text }
{
    match text {
        None => None,
        Some(text) => Some(text.into_string()),
    }
}
