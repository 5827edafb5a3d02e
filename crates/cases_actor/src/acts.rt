//! The lines of a replay as acts.
ghost use Rattle.std.specs.Prelude.{◌≡◌, false, IfOk};
ghost use Rattle.realm_inbox.specs.Joins.{is_join};

use case_items::said_of;
use case_posts::Wire;
use realm_inbox::Act;
use std::alloc::Global;
use std::io;

/// What a later line of a replay is as an act: what no message of a client is spoils the session.
pub fn act_of_line(alloc: Global, text: &str) -> io::Result<Act<Wire>>
    ensures { IfOk result (λ act. is_join act ≡ false) }
{
    match text {
        "gone" => Ok(Act::Gone),
        _ => match said_of(alloc, text)? {
            Some(said) => Ok(Act::Said(said)),
            None => Ok(Act::Spoilt),
        },
    }
}
