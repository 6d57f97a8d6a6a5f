// What a client of the crowd asks in one call. Each tells how many entries were made, and `None` where that was not answered as it may be.
ghost use Rattle.std.specs.Prelude.{◌<◌};
ghost use Rattle.anti_live.specs.Clients.{IsOf};
ghost use Rattle.test_live.specs.Three.{AreThree};

use crate::worker::Worker;
use anti_ids::{Lineage, LineageRefused};
use anti_kind::{Answer, Refusal};
use anti_live::{Client, Live};
use anti_shim::{BarrierAnswer, ShimFault};
use std::alloc::AllocGlobal;
use std::sync::Wait;

// Writes to a key of a store.
fn writes<R: Wait + AllocGlobal>(
    rt: &R,
    live: &Live,
    client: &mut Client,
    worker: &mut Worker,
    store: u32,
) -> Option<u32>
    requires of { IsOf live.now client.old }
    requires stores { AreThree live.now.stores }
    requires store { store < 3 }
    ensures { IsOf live.now client.new }
{
    let Some(key) = worker.key() else {
        return None;
    };
    let Some(value) = worker.value(rt.alloc()) else {
        return None;
    };
    match live.write(rt, client, store, key, value) {
        Ok(id) => {
            worker.wrote(id);
            Some(1)
        }
        Err(ShimFault::LineageFull(_)) => Some(1),
        Err(ShimFault::Refused(Refusal::Full { .. })) => Some(0),
        Err(_) => None,
    }
}

// Reads a key of a store, where it can be read in the client's region, and else brings a version of it. Half of the rows are carried on.
fn reads<R: Wait + AllocGlobal>(
    rt: &R,
    live: &Live,
    client: &mut Client,
    worker: &mut Worker,
    store: u32,
) -> Option<u32>
    requires of { IsOf live.now client.old }
    requires stores { AreThree live.now.stores }
    requires store { store < 3 }
    ensures { IsOf live.now client.new }
{
    if !client.is_here(store) {
        return ships(rt, live, client, worker, store);
    }
    let Some(key) = worker.key() else {
        return None;
    };
    let Ok(row) = live.read(rt, client, store, key) else {
        return None;
    };
    if worker.below(2) == 0 {
        return Some(1);
    }
    match client.transfer(store, &row) {
        Ok(()) => Some(1),
        Err(LineageRefused::Full) => Some(1),
        Err(LineageRefused::NoMemory) => None,
    }
}

// Scans the table, where it can be read in the client's region, and else brings a version of it.
fn scans<R: Wait + AllocGlobal>(
    rt: &R,
    live: &Live,
    client: &mut Client,
    worker: &mut Worker,
) -> Option<u32>
    requires of { IsOf live.now client.old }
    requires stores { AreThree live.now.stores }
    ensures { IsOf live.now client.new }
{
    if !client.is_here(1) {
        return ships(rt, live, client, worker, 1);
    }
    let Some(prefix) = worker.prefix() else {
        return None;
    };
    match live.scan(rt, client, 1, prefix) {
        Ok(_) => Some(1),
        Err(_) => None,
    }
}

// Whether a shipment was made.
fn is_made(answer: &Answer) -> Option<u32> {
    match answer {
        Answer::Made { .. } => Some(1),
        Answer::Refused(Refusal::NotYet) => Some(0),
        _ => None,
    }
}

// Brings a version of a store to a region: of the table the next one.
fn ships<R: Wait>(
    rt: &R,
    live: &Live,
    client: &mut Client,
    worker: &mut Worker,
    store: u32,
) -> Option<u32>
    requires of { IsOf live.now client.old }
    requires stores { AreThree live.now.stores }
    requires store { store < 3 }
    ensures { IsOf live.now client.new }
{
    let region = worker.below(2);
    if store == 1 {
        let version = worker.next(region);
        return is_made(&live.ship(rt, client, 1, region, version, 1));
    }
    let version = worker.version(store);
    let part = worker.below(2) + 1;
    is_made(&live.ship(rt, client, store, region, version, part))
}

// Whether a lineage has an id of a store.
fn has_some(lineage: &Lineage, store: u32) -> bool {
    for id in lineage.iter() {
        if id.store == store {
            return true;
        }
    }
    false
}

// At how many stores of its region a client looks: of each of which it carries ids.
fn looks_of(client: &Client) -> u32 {
    let mut looks: u32 = 0;
    for store in 0..3 {
        if client.is_here(store) && has_some(client.lineage(), store) {
            looks = looks.saturating_add(1);
        }
    }
    looks
}

// Names what is missing, by a look at each store.
fn names<R: Wait>(rt: &R, live: &Live, client: &mut Client) -> Option<u32>
    requires { IsOf live.now client.old }
    ensures { IsOf live.now client.new }
{
    let looks = looks_of(client);
    match live.dry_run(rt, client) {
        Ok(_) => Some(looks),
        Err(_) => None,
    }
}

// Makes a barrier, which is clear, with a sight for each look, or not yet. With three looks it would be told that one was refused, and not
// whether one or two were made before, so then what is missing is named.
fn holds<R: Wait>(rt: &R, live: &Live, client: &mut Client) -> Option<u32>
    requires { IsOf live.now client.old }
    ensures { IsOf live.now client.new }
{
    let looks = looks_of(client);
    if looks > 2 {
        return names(rt, live, client);
    }
    let before = client.clock();
    match live.barrier(rt, client) {
        BarrierAnswer::Clear(sights) => (sights.len() == looks as usize).then_some(looks),
        BarrierAnswer::Refused(Refusal::NotYet) => Some(u32::from(client.clock() > before)),
        _ => None,
    }
}

/// Asks something that the thread draws.
pub fn asks<R: Wait + AllocGlobal>(
    rt: &R,
    live: &Live,
    client: &mut Client,
    worker: &mut Worker,
) -> Option<u32>
    requires of { IsOf live.now client.old }
    requires stores { AreThree live.now.stores }
    ensures { IsOf live.now client.new }
{
    let store = worker.below(3);
    match worker.below(16) {
        0..=1 => writes(rt, live, client, worker, store),
        2..=4 => reads(rt, live, client, worker, store),
        5 => scans(rt, live, client, worker),
        6..=11 => ships(rt, live, client, worker, store),
        12..=13 => holds(rt, live, client),
        _ => names(rt, live, client),
    }
}
