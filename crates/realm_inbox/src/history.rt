//! A realm's history, as the outboxes know it.
ghost use Rattle.std.specs.Prelude.{◌≡◌, Some};

use outbox_queue::{Book, Owed, Recorded};
use realm::Realm;
use std::marker::Model;
use std::snapshot::Snapshot;
use wamp_messages::Item;

/// The history of a realm at one moment. It takes no bytes, and is tied to no chronicle.
#[derive(Drop)]
pub struct RealmMoment {
    of: Snapshot<Realm>,
}

impl Model for RealmMoment {
    ghost use Rattle.realm.specs.History.{History};
    ghost use Rattle.realm.specs.body.HistoryCode.{history_code};

    ghost Value = { History };

    ghost coded = { history_code };

    ghost view = { λ h. h.of.value };
}

impl Owed<Item> for RealmMoment {
    ghost use Rattle.std.specs.Prelude.{⊤};
    ghost use Rattle.realm.specs.History.{Begins};
    ghost use Rattle.realm.specs.Yield.{owed as owed_by};
    ghost use Rattle.realm_inbox.specs.HistoryBeginnings.{begins_same, begins_longer, owed_more};
    ghost use Rattle.realm_inbox.specs.Over.{OwesNoMore, was_cut as is_cut_in};

    ghost begins = { Begins };

    ghost owed = { owed_by };

    ghost begins_itself = { begins_same };

    ghost begins_on = { begins_longer };

    ghost owes_on = { owed_more };

    ghost is_of = { λ h chronicle. ⊤ };

    ghost is_over = { OwesNoMore };

    ghost was_cut = { is_cut_in };
}

impl RealmMoment {
    /// The history of the realm as it is now.
    pub fn of(realm: &Realm) -> RealmMoment
        ensures { result ≡ realm.now }
    {
        RealmMoment {
            of: Snapshot::of(realm),
        }
    }
}

/// The chronicle of a realm's history, which the realm's actor alone makes longer.
pub type RealmChronicle = Book<Item, RealmMoment>;

/// The history of a realm at one moment, as its chronicle recorded it. It takes no bytes.
pub type RealmHistory = Recorded<Item, RealmMoment>;
