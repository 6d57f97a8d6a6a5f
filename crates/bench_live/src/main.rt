//! Makes calls on stores that threads share, by one client: a benchmark. `bench_live write 100` makes 2,000 writes with an empty lineage
//! a hundred times, each time on new stores, and `bench_live call 100` the same writes without a client, by `Shared::call`. `bench_live
//! barrier 100` makes as many barriers over four stores, each for 64 ids that are visible there, and `bench_live split 100` splits a client
//! and joins it again. It tells how many were made.
#![tactic(auto)]

ghost use Rattle.std.specs.Prelude.{◌≡◌, ◌<◌, ◌≤◌, [], ◌∷◌, IfSome, length};
ghost use Rattle.anti_live.specs.Clients.{IsOf, LiveView};
ghost use Rattle.anti_live.specs.Stores.{AreStores};

use anti_ids::{Lineage, List, Name, Value};
use anti_kind::{Actor, Answer, Call, Handle};
use anti_kv::Kv;
use anti_live::{Client, Live, LiveKind, LiveStore, LiveStores};
use anti_shared::Shared;
use anti_shim::BarrierAnswer;
use std::alloc::Global;
use std::process::ExitCode;
use std::rt::Env;
use std::sync::Wait;
use std::{env, str};

// How often it is made on the same stores: a write needs two of their 4,096 units each.
const TURNS: u32 = 2000;

// How many ids of each store are carried to a barrier.
const IDS: u32 = 16;

// What is made.
#[derive(Clone, Copy)]
enum Measure {
    Write,
    Call,
    Barrier,
    Split,
}

// The key of a turn: no other of some thousands has it.
fn key_of(turn: u32) -> Option<Name> {
    let letters = [
        b'a' + (turn / 676 % 26) as u8,
        b'a' + (turn / 26 % 26) as u8,
        b'a' + (turn % 26) as u8,
    ];
    Name::new(&letters).ok()
}

// A store of keys, with a replica in region 0.
fn store_of(alloc: Global, name: &[u8]) -> Option<LiveStore>
    ensures { IfSome result (λ store. (store.name ≡ name.now) × (store.regions.items ≡ 0 ∷ [])) }
{
    let regions = vec![in alloc; 0].ok()?;
    Some(LiveStore {
        name: Name::new(name).ok()?,
        kind: LiveKind::Kv,
        regions: List::from(regions),
    })
}

fn stores_of(alloc: Global) -> Option<LiveStores>
    ensures stores { IfSome result (λ stores. AreStores stores.items) }
    ensures four { IfSome result (λ stores. length stores.items ≡ 4) }
{
    let first = store_of(alloc, b"a")?;
    let second = store_of(alloc, b"b")?;
    let third = store_of(alloc, b"c")?;
    let fourth = store_of(alloc, b"d")?;
    let stores = vec![in alloc; first, second, third, fourth].ok()?;
    Some(List::from(stores))
}

// Four stores, and a client in region 0.
fn started(alloc: Global) -> Option<(Live, Client)>
    ensures of { IfSome result (λ made. IsOf made.0 made.1) }
    ensures four { IfSome result (λ made. length made.0.stores ≡ 4) }
{
    Live::start(alloc, stores_of(alloc)?, 0).ok()
}

// Writes the value `v` to a key that was not written, and gives the version.
fn write<R: Wait + AllocGlobal>(
    rt: &R,
    live: &Live,
    client: &mut Client,
    store: u32,
    turn: u32,
) -> Option<u64>
    requires of { IsOf live.now client.old }
    requires store { store < length live.now.stores }
    ensures { IsOf live.now client.new }
{
    let key = key_of(turn)?;
    let value = Value::new(rt.alloc(), b"v").ok()?;
    match live.write(rt, client, store, key, value) {
        Ok(id) => Some(id.version),
        Err(_) => None,
    }
}

// Empties the lineage, and begins the next span.
fn begin(client: &mut Client)
    ensures { (live : LiveView) → IsOf live client.old → IsOf live client.new }
{
    if client.span() < u32::MAX {
        client.root();
    }
}

// Writes with an empty lineage.
fn writes<R: Wait + AllocGlobal>(rt: &R) -> Option<()> {
    let (live, mut client) = started(rt.alloc())?;
    for turn in 0..TURNS {
        begin(&mut client);
        write(rt, &live, &mut client, 0, turn)?;
    }
    Some(())
}

// A write of the value `v` to a key, with the empty lineage.
fn call_of(alloc: Global, turn: u32) -> Option<Call> {
    let value = Value::new(alloc, b"v").ok()?;
    let key = Handle::new(alloc, key_of(turn)?).ok()?;
    let lineage = Handle::new(alloc, Lineage::root(alloc)).ok()?;
    Some(Call::Write {
        key,
        value,
        lineage,
    })
}

// The same writes, without a client.
fn calls<R: Wait + AllocGlobal>(rt: &R) -> Option<()> {
    let store = Kv::new(rt.alloc(), 0, &[0]).ok()?;
    let (shared, mut pass) = Shared::new(rt.alloc(), 0, store).ok()?;
    for turn in 0..TURNS {
        let write = call_of(rt.alloc(), turn)?;
        let answer = shared.call(rt, &mut pass, Actor::Carrier(1), turn, 0, write);
        let Answer::Made { .. } = answer else {
            return None;
        };
    }
    Some(())
}

// Writes and brings so many ids of each store, so that the client carries them.
fn carry<R: Wait + AllocGlobal>(rt: &R, live: &Live, client: &mut Client) -> Option<()>
    requires of { IsOf live.now client.old }
    requires four { length live.now.stores ≡ 4 }
    ensures { IsOf live.now client.new }
{
    for turn in 0..IDS {
        for store in 0..4 {
            let version = write(rt, live, client, store, turn)?;
            let Answer::Made { .. } = live.ship(rt, client, store, 0, version, 1) else {
                return None;
            };
        }
    }
    Some(())
}

// Barriers for what is carried.
fn barriers<R: Wait + AllocGlobal>(rt: &R) -> Option<()> {
    let (live, mut client) = started(rt.alloc())?;
    carry(rt, &live, &mut client)?;
    for _ in 0..TURNS {
        let BarrierAnswer::Clear(_) = live.barrier(rt, &mut client) else {
            return None;
        };
    }
    Some(())
}

// Splits of a client that is joined again.
fn splits<R: Wait + AllocGlobal>(rt: &R) -> Option<()> {
    let (live, mut client) = started(rt.alloc())?;
    for _ in 0..TURNS {
        if client.room() == 0 {
            return None;
        }
        let further = live.split(&mut client, 0).ok()?;
        live.join(&mut client, further);
    }
    Some(())
}

// What is made, and how many times on new stores.
fn words_of<R: Env + AllocGlobal>(rt: &R) -> Option<(Measure, u32)> {
    let mut arguments = env::args(rt).ok()?.skip(1);
    let word = arguments.next()?;
    let measure = match word.as_bytes() {
        b"write" => Measure::Write,
        b"call" => Measure::Call,
        b"barrier" => Measure::Barrier,
        b"split" => Measure::Split,
        _ => return None,
    };
    let rounds = arguments.next()?;
    let rounds = str::from_utf8(rounds.as_bytes()).ok()?.parse::<u32>().ok()?;
    Some((measure, rounds))
}

fn main(rt: HostRuntime) -> ExitCode {
    let Some((measure, rounds)) = words_of(&rt) else {
        let _ = eprintln!(rt;
            "bench_live MEASURE ROUNDS: the measure is write, call, barrier or split"
        );
        return ExitCode::FAILURE;
    };
    for _ in 0..rounds {
        let made = match measure {
            Measure::Write => writes(&rt),
            Measure::Call => calls(&rt),
            Measure::Barrier => barriers(&rt),
            Measure::Split => splits(&rt),
        };
        if made.is_none() {
            return ExitCode::FAILURE;
        }
    }
    let _ = println!(rt; "{}", rounds.saturating_mul(TURNS));
    ExitCode::SUCCESS
}
