//! The realms' actors are started.
ghost use Rattle.std.specs.Prelude.{◌≡◌, ◌<◌, ◌+◌, [], ◌∷◌, length, IfOk, OnOk};
ghost use Rattle.ghost_state.specs.GhostList.{items_of};
ghost use Rattle.realm.specs.Grants.{pairs_of};
ghost use Rattle.realm.specs.History.{begun};
ghost use Rattle.broker_threads.specs.Words.{are_counted};
ghost use Rattle.threaded_server.specs.Realms.{realms_of};
ghost use Rattle.threaded_server.specs.Stopping.{NoneStopped, stops_of};
ghost use Rattle.threaded_server.specs.Table.{IsUnused};

use crate::connection_table::ConnectionTable;
use crate::realm_handle::RealmHandle;
use broker_config::{Config, copy_grants};
use broker_threads::{ActorThread, IdWords};
use crossbeam_channel::bounded;
use rawsocket::devices::{Sink, Source};
use realm::{Realm, RealmConfig};
use realm_inbox::opening::inbox_of_chronicle;
use realm_inbox::{RealmChronicle, Shut};
use std::alloc::{AllocError, Global};
use std::random::RandomSource;
use std::sync::{Arc, Wait};
use std::thread::Threads;
use std::time::{Clock, CpuClock};
use wamp_ids::Topic;

/// How many posts may wait in a realm's inbox.
const MOST_POSTS: usize = 1024;

// What a realm of this name is made from.
fn realm_config(alloc: Global, name: &Topic, config: &Config) -> Result<RealmConfig, AllocError>
    ensures { IfOk result (λ made. (made.name ≡ name.now)
        × (pairs_of made.grants.items ≡ pairs_of config.now.grants.items)) }
{
    Ok(RealmConfig {
        name: name.try_copy(alloc)?,
        grants: copy_grants(alloc, &config.grants)?,
    })
}

// A realm of this name, which nothing has entered yet, and where its ids come from.
fn new_realm<R: RandomSource>(
    rt: &R,
    alloc: Global,
    name: &Topic,
    config: &Config,
) -> Result<(Realm, IdWords), AllocError>
    ensures realm { IfOk result (λ made. made.0 ≡ begun (pairs_of config.now.grants.items)) }
    ensures words { IfOk result (λ made. made.1
        ≡ record { is_counting = are_counted config.now.ids; given = [] }) }
{
    let Ok(realm) = Realm::new(alloc, realm_config(alloc, name, config)?) else {
        return Err(AllocError);
    };
    match IdWords::new(rt, config.ids) {
        Ok(words) => Ok((realm, words)),
        Err(_) => Err(AllocError),
    }
}

// Starts the realms' actors.
pub(crate) fn open<
    R: Threads + Wait + Clock + CpuClock + RandomSource + Copy + Send + 'static,
    I: Source + Drop + Send + 'static,
    O: Sink + Drop + Send + 'static,
    S: Shut + Send + 'static,
>(rt: R, connection_table: &mut ConnectionTable<I, O, S>, config: &Config) -> Result<(), AllocError>
    requires config { connection_table.old.roster.over.plan.value.config.value ≡ config.now }
    requires realms { connection_table.old.roster.over.plan.value.realms.items
        ≡ config.now.realms.items }
    requires none { realms_of connection_table.old.realms ≡ [] }
    requires unused { IsUnused connection_table.old.roster.entries.items
        (items_of connection_table.old.roster.over.streams) }
    ensures roster { connection_table.new.roster ≡ connection_table.old.roster }
    ensures realms { OnOk result
        (length (realms_of connection_table.new.realms) ≡ length config.now.realms.items) }
    ensures stops { NoneStopped (stops_of connection_table.old.doors)
        → NoneStopped (stops_of connection_table.new.doors) }
{
    for name in &config.realms {
        open_realm(rt, connection_table, config, name)?;
    }
    Ok(())
}

fn open_realm<
    R: Threads + Wait + Clock + CpuClock + RandomSource + Copy + Send + 'static,
    I: Source + Drop + Send + 'static,
    O: Sink + Drop + Send + 'static,
    S: Shut + Send + 'static,
>(
    rt: R,
    connection_table: &mut ConnectionTable<I, O, S>,
    config: &Config,
    name: &Topic,
) -> Result<(), AllocError>
    requires config { connection_table.old.roster.over.plan.value.config.value ≡ config.now }
    requires within { length (realms_of connection_table.old.realms)
        < length connection_table.old.roster.over.plan.value.realms.items }
    requires unused { IsUnused connection_table.old.roster.entries.items
        (items_of connection_table.old.roster.over.streams) }
    ensures roster { connection_table.new.roster ≡ connection_table.old.roster }
    ensures one { OnOk result (length (realms_of connection_table.new.realms)
        ≡ length (realms_of connection_table.old.realms) + 1) }
    ensures stops { NoneStopped (stops_of connection_table.old.doors)
        → NoneStopped (stops_of connection_table.new.doors) }
{
    let alloc = connection_table.alloc;
    let plan = Arc::try_clone(&connection_table.plan)?;
    let marks = Arc::try_clone(&connection_table.marks)?;
    let chronicle = RealmChronicle::new(alloc)?;
    let (door, seats, inbox) = inbox_of_chronicle::<S>(alloc, MOST_POSTS, &chronicle)?;
    let (teller, told) = bounded(alloc, 1)?;
    let (kept, words) = new_realm(&rt, alloc, name, config)?;
    let work = ActorThread {
        alloc,
        plan,
        realm: connection_table.count_realms(),
        kept,
        words,
        chronicle,
        inbox,
        teller,
        marks,
    };
    let handle = RealmHandle::start(rt, alloc, told, work)?;
    connection_table.add_realm(&rt, handle, door, seats)
}
