//! What the options of a PUBLISH ask for.
ghost use Rattle.std.specs.Prelude.{◌≡◌, IfOk};
ghost use Rattle.message_tree.specs.Data.{no_entries};
ghost use Rattle.message_tree.specs.View.{dict_view};

use crate::kinds::{flag_at, flag_of};
use crate::publish_values::PublishValues;
use eligibility::{Fault, Lists};
use message_tree::Dict;
use msgpack_cursor::Dictionary;
use std::alloc::{AllocError, Global};

/// What the options of a PUBLISH ask for (WAMP, "Publishing and Events", "Event Retention",
/// "Subscriber Black- and Whitelisting"). An option that is null counts as absent.
#[derive(Drop)]
pub struct PublishOptions {
    /// `acknowledge`: whether an answer is wanted, false where it is absent; `None` where it has a
    /// wrong type.
    pub acknowledge: Option<bool>,
    /// `disclose_me`: whether its events name the publisher, false where it is absent; `None` where
    /// it has a wrong type.
    pub disclose_me: Option<bool>,
    /// `retain`: whether it is to be its topic's retained publication, false where it is absent;
    /// `None` where it has a wrong type.
    pub retain: Option<bool>,
    /// Who is to receive it; `None` where one of the seven options that say so has a wrong type.
    pub lists: Option<Lists>,
}

impl PublishOptions {
    ghost use Rattle.wamp_messages.specs.Options.{publish_options_of};

    /// What a PUBLISH without options asks for.
    pub fn none() -> PublishOptions
        ensures { result ≡ publish_options_of no_entries }
    {
        PublishOptions {
            acknowledge: Some(false),
            disclose_me: Some(false),
            retain: Some(false),
            lists: Some(Lists::everyone()),
        }
    }

    /// What the options ask for, which are spent. Others than these are passed over.
    ///
    /// # Errors
    /// [`AllocError`] where a growth was refused.
    pub fn of_dict(alloc: Global, options: Dict) -> Result<PublishOptions, AllocError>
        ensures { IfOk result (λ asked. asked ≡ publish_options_of (dict_view options)) }
    {
        let acknowledge = flag_at(&options, "acknowledge");
        let disclose_me = flag_at(&options, "disclose_me");
        let retain = flag_at(&options, "retain");
        let lists = match Lists::take(alloc, options) {
            Ok(lists) => Some(lists),
            Err(Fault::Shape) => None,
            Err(Fault::NoMemory) => return Err(AllocError),
        };
        Ok(PublishOptions {
            acknowledge,
            disclose_me,
            retain,
            lists,
        })
    }

    /// What the options ask for, where they stand in octets. Others than these are passed over. No
    /// memory is taken where none of the six lists is given.
    ///
    /// # Errors
    /// [`AllocError`] where a growth was refused.
    #[tactic(auto, unfolding(eligibility::specs::Lists::audience_of))]
    pub fn of_octets(alloc: Global, options: &Dictionary<'_>) -> Result<PublishOptions, AllocError>
        ensures { IfOk result (λ asked. asked ≡ publish_options_of options.now) }
    {
        let values = PublishValues::of(options);
        let lists = Lists::of_values(alloc, &values.lists)?;
        Ok(PublishOptions {
            acknowledge: flag_of(values.acknowledge),
            disclose_me: flag_of(values.disclose_me),
            retain: flag_of(values.retain),
            lists,
        })
    }

    /// The same, in memory of its own.
    ///
    /// # Errors
    /// [`AllocError`] where a growth was refused.
    pub fn twin(&self) -> Result<PublishOptions, AllocError>
        ensures { IfOk result (λ twin. twin ≡ self.now) }
    {
        let lists = match &self.lists {
            Some(lists) => Some(lists.twin()?),
            None => None,
        };
        Ok(PublishOptions {
            acknowledge: self.acknowledge,
            disclose_me: self.disclose_me,
            retain: self.retain,
            lists,
        })
    }
}
