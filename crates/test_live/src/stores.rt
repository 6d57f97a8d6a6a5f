// The stores of the tests, and what clients ask of them. Each answers `None` where memory runs out.
ghost use Rattle.std.specs.Prelude.{◌≡◌, ◌<◌, IfSome, length};
ghost use Rattle.anti_live.specs.Stores.{AreRegions, AreStores};
ghost use Rattle.anti_live.specs.Clients.{IsOf};
ghost use Rattle.test_live.specs.Three.{AreThree};

use anti_ids::{List, Name, Value};
use anti_kind::Answer;
use anti_live::{Client, Live, LiveKind, LiveStore, LiveStores};
use std::alloc::{AllocGlobal, Global};
use std::sync::Wait;

/// One store of keys with the name `posts`, with a replica in region 0.
fn posts(alloc: Global) -> Option<LiveStores>
    ensures { IfSome result (λ stores. AreStores stores.items) }
{
    let mut regions = List::new(alloc);
    let Ok(()) = regions.add(0) else {
        return None;
    };
    let Ok(name) = Name::new(b"posts") else {
        return None;
    };
    let mut stores = List::new(alloc);
    let store = LiveStore {
        name,
        kind: LiveKind::Kv,
        regions,
    };
    match stores.add(store) {
        Ok(()) => Some(stores),
        Err(_) => None,
    }
}

/// They are shared, with the first client in region 0.
pub fn started(alloc: Global) -> Option<(Live, Client)>
    ensures of { IfSome result (λ made. IsOf made.0 made.1) }
    ensures some { IfSome result (λ made. 0 < length made.0.stores) }
{
    match Live::start(alloc, posts(alloc)?, 0) {
        Ok(made) => Some(made),
        Err(_) => None,
    }
}

// A store with a replica in region 0, and in region 1 where it has two.
fn store(alloc: Global, name: Name, kind: LiveKind, has_two: bool) -> Option<LiveStore>
    ensures { IfSome result (λ s. (s.name ≡ name) × (s.kind ≡ kind) × AreRegions s.regions.items) }
{
    let mut regions = List::new(alloc);
    let Ok(()) = regions.add(0) else {
        return None;
    };
    if !has_two {
        return Some(LiveStore {
            name,
            kind,
            regions,
        });
    }
    match regions.add(1) {
        Ok(()) => Some(LiveStore {
            name,
            kind,
            regions,
        }),
        Err(_) => None,
    }
}

// The store 0 of keys and the table 1, with replicas in the regions 0 and 1, and the store 2 of blobs, with one in region 0.
fn three(alloc: Global) -> Option<LiveStores>
    ensures stores { IfSome result (λ stores. AreStores stores.items) }
    ensures three { IfSome result (λ stores. AreThree stores.items) }
{
    let Ok(posts) = Name::new(b"posts") else {
        return None;
    };
    let Ok(notes) = Name::new(b"notes") else {
        return None;
    };
    let Ok(files) = Name::new(b"files") else {
        return None;
    };
    let posts = store(alloc, posts, LiveKind::Kv, true)?;
    let notes = store(alloc, notes, LiveKind::Table, true)?;
    let files = store(alloc, files, LiveKind::Blob, false)?;
    let mut stores = List::new(alloc);
    let Ok(()) = stores.add(posts) else {
        return None;
    };
    let Ok(()) = stores.add(notes) else {
        return None;
    };
    match stores.add(files) {
        Ok(()) => Some(stores),
        Err(_) => None,
    }
}

/// These three are shared, with the first client in region 0.
pub fn three_started(alloc: Global) -> Option<(Live, Client)>
    ensures of { IfSome result (λ made. IsOf made.0 made.1) }
    ensures three { IfSome result (λ made. AreThree made.0.stores) }
{
    match Live::start(alloc, three(alloc)?, 0) {
        Ok(made) => Some(made),
        Err(_) => None,
    }
}

/// Writes a value to a key of the store 0, and tells the version.
pub fn write<R: Wait + AllocGlobal>(
    rt: &R,
    live: &Live,
    client: &mut Client,
    key: &[u8],
    value: &[u8],
) -> Option<u64>
    requires of { IsOf live.now client.old }
    requires store { 0 < length live.now.stores }
    ensures { IsOf live.now client.new }
{
    let Ok(key) = Name::new(key) else {
        return None;
    };
    let Ok(value) = Value::new(rt.alloc(), value) else {
        return None;
    };
    match live.write(rt, client, 0, key, value) {
        Ok(id) => Some(id.version),
        Err(_) => None,
    }
}

/// Brings the first part of a version of the store 0 to region 0, and tells whether it was made.
pub fn ship<R: Wait>(rt: &R, live: &Live, client: &mut Client, version: u64) -> bool
    requires of { IsOf live.now client.old }
    requires store { 0 < length live.now.stores }
    ensures { IsOf live.now client.new }
{
    matches!(live.ship(rt, client, 0, 0, version, 1), Answer::Made { .. })
}

/// The version that the store 0 shows for a key, where it has a replica in the client's region.
pub fn read<R: Wait>(rt: &R, live: &Live, client: &mut Client, key: &[u8]) -> Option<u64>
    requires { IsOf live.now client.old }
    ensures { IsOf live.now client.new }
{
    let Ok(key) = Name::new(key) else {
        return None;
    };
    if !client.is_here(0) {
        return None;
    }
    match live.read(rt, client, 0, key) {
        Ok(row) => Some(row.version),
        Err(_) => None,
    }
}
