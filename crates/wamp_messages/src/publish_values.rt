//! The values of the options of a PUBLISH, where they stand.
ghost use Rattle.std.specs.Prelude.{◌≡◌};
ghost use Rattle.message_tree.specs.Data.{Entries, no_entries, put};
ghost use Rattle.eligibility.specs.Lists.{found_in};

use eligibility::ListOptions;
use msgpack_cursor::{Dictionary, Value};

/// The options of a PUBLISH that are known, each with the last value that it was given.
#[derive(Drop)]
pub(crate) struct PublishValues<'a> {
    pub(crate) acknowledge: Option<Value<'a>>,
    pub(crate) disclose_me: Option<Value<'a>>,
    pub(crate) retain: Option<Value<'a>>,
    pub(crate) lists: ListOptions<'a>,
}

impl<'a> PublishValues<'a> {
    ghost use Rattle.wamp_messages.specs.body.Values.{publish_values_of};

    /// Those of a dictionary, which is gone through once.
    pub fn of(options: &Dictionary<'a>) -> PublishValues<'a>
        ensures { result ≡ publish_values_of options.now }
    {
        let mut values = PublishValues {
            acknowledge: None,
            disclose_me: None,
            retain: None,
            lists: no_lists(),
        };
        let mut entries = options.entries();
        while let Some((key, value)) = entries.next() {
            values.keep(key, value);
        }
        values
    }

    /// Keeps the value of a known option, in place of one that it was given before.
    fn keep(&mut self, key: &str, value: Value<'a>)
        ensures { (es : Entries) → self.old ≡ publish_values_of es
            → self.new ≡ publish_values_of (put key.now value.entry es) }
    {
        if key == "acknowledge" {
            self.acknowledge = Some(value);
        } else if key == "disclose_me" {
            self.disclose_me = Some(value);
        } else if key == "retain" {
            self.retain = Some(value);
        } else {
            keep_list(&mut self.lists, key, value);
        }
    }
}

/// None of the seven options that say who receives.
fn no_lists<'a>() -> ListOptions<'a>
    ensures { result ≡ found_in no_entries }
{
    ListOptions {
        exclude_me: None,
        exclude: None,
        exclude_authid: None,
        exclude_authrole: None,
        eligible: None,
        eligible_authid: None,
        eligible_authrole: None,
    }
}

/// Keeps the value of an option that says who receives, in place of one that it was given before.
fn keep_list<'a>(lists: &mut ListOptions<'a>, key: &str, value: Value<'a>)
    ensures { (es : Entries) → lists.old ≡ found_in es
        → lists.new ≡ found_in (put key.now value.entry es) }
{
    if key == "exclude_me" {
        lists.exclude_me = Some(value);
    } else if key == "exclude" {
        lists.exclude = Some(value);
    } else if key == "exclude_authid" {
        lists.exclude_authid = Some(value);
    } else if key == "exclude_authrole" {
        lists.exclude_authrole = Some(value);
    } else if key == "eligible" {
        lists.eligible = Some(value);
    } else if key == "eligible_authid" {
        lists.eligible_authid = Some(value);
    } else if key == "eligible_authrole" {
        lists.eligible_authrole = Some(value);
    }
}
