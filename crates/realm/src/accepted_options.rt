//! What the options of a PUBLISH ask for, where they are well formed.
ghost use Rattle.std.specs.Prelude.{◌≡◌};
ghost use Rattle.realm.specs.Publications.{accepted_options_of};

use wamp_messages::{Lists, PublishOptions};

/// What well-formed options of a PUBLISH ask for, but an answer.
#[derive(Drop)]
pub struct AcceptedOptions {
    /// Who is to receive it.
    pub lists: Lists,
    /// Whether its events name the publisher.
    pub disclosed: bool,
    /// Whether it is to be its topic's retained publication.
    pub retained: bool,
}

/// What the options of a PUBLISH ask for; `None` where one of them has a wrong type.
pub fn accepted_options(options: PublishOptions) -> Option<AcceptedOptions>
    ensures { result ≡ accepted_options_of options }
{
    let PublishOptions {
        acknowledge,
        disclose_me,
        retain,
        lists,
    } = options;
    match (acknowledge, disclose_me, retain, lists) {
        (Some(_), Some(disclosed), Some(retained), Some(lists)) => Some(AcceptedOptions {
            lists,
            disclosed,
            retained,
        }),
        _ => None,
    }
}
