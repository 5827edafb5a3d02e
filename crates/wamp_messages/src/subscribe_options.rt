//! What the options of a SUBSCRIBE ask for.
ghost use Rattle.std.specs.Prelude.{◌≡◌};
ghost use Rattle.message_tree.specs.Data.{no_entries};
ghost use Rattle.message_tree.specs.View.{dict_view};

use crate::kinds::{flag_at, flag_of, policy_in, policy_of};
use crate::subscribe_values::SubscribeValues;
use message_tree::Dict;
use msgpack_cursor::Dictionary;
use wamp_ids::Policy;

/// What the options of a SUBSCRIBE ask for (WAMP, "Pattern-based Subscriptions", "Event Retention").
/// An option that is null counts as absent.
#[derive(Clone, Copy, Debug, PartialEq, Eq)]
pub struct SubscribeOptions {
    /// `match`: how the pattern is compared, exact where it is absent; `None` where it names no
    /// policy.
    pub policy: Option<Policy>,
    /// `get_retained`: whether retained events are wanted, false where it is absent; `None` where it
    /// has a wrong type.
    pub get_retained: Option<bool>,
}

impl SubscribeOptions {
    ghost use Rattle.wamp_messages.specs.Options.{subscribe_options_of};

    /// What a SUBSCRIBE without options asks for.
    pub fn none() -> SubscribeOptions
        ensures { result ≡ subscribe_options_of no_entries }
    {
        SubscribeOptions {
            policy: Some(Policy::Exact),
            get_retained: Some(false),
        }
    }

    /// What the options ask for. Others than these are passed over.
    pub fn of_dict(options: &Dict) -> SubscribeOptions
        ensures { result ≡ subscribe_options_of (dict_view options.now) }
    {
        SubscribeOptions {
            policy: policy_in(options),
            get_retained: flag_at(options, "get_retained"),
        }
    }

    /// What the options ask for, where they stand in octets. Others than these are passed over.
    pub fn of_octets(options: &Dictionary<'_>) -> SubscribeOptions
        ensures { result ≡ subscribe_options_of options.now }
    {
        let values = SubscribeValues::of(options);
        SubscribeOptions {
            policy: policy_of(values.policy),
            get_retained: flag_of(values.get_retained),
        }
    }
}
