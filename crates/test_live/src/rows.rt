// What one thread does with two clients of one store.
ghost use Rattle.std.specs.Prelude.{◌≡◌, ◌<◌, length};
ghost use Rattle.anti_live.specs.Clients.{IsOf, LiveView};

use crate::stores::{read, ship, started, write};
use anti_baggage::BaggageFault;
use anti_ids::{Lineage, MOST_IDS, Name, Value};
use anti_kind::{Refusal, Row};
use anti_live::{CarryFault, CarryOutFault, Client, Live};
use anti_shim::BarrierAnswer;
use std::alloc::{AllocGlobal, Global};
use std::process::Abort;
use std::sync::Wait;

// Whether a barrier of the second client, which carries the first version, waits for its shipment and then is clear, and the key is read.
fn waits_for_the_shipment<R: Wait + AllocGlobal>(
    rt: &R,
    live: &Live,
    first: &mut Client,
    second: &mut Client,
) -> bool
    requires first { IsOf live.now first.old }
    requires second { IsOf live.now second.old }
    requires store { 0 < length live.now.stores }
    ensures first { IsOf live.now first.new }
    ensures second { IsOf live.now second.new }
{
    let early = live.barrier(rt, second);
    if !matches!(early, BarrierAnswer::Refused(Refusal::NotYet)) {
        return false;
    }
    if !ship(rt, live, first, 1) {
        return false;
    }
    let BarrierAnswer::Clear(sights) = live.barrier(rt, second) else {
        return false;
    };
    sights.len() == 1 && read(rt, live, second, b"p1") == Some(1)
}

// Whether texts are carried in as they say.
fn carries_texts<R: Wait + AllocGlobal>(rt: &R, live: &Live, client: &mut Client) -> bool
    requires { IsOf live.now client.old }
    ensures { IsOf live.now client.new }
{
    if live.carry_in(client, b"1;posts/zz@9").is_err() {
        return false;
    }
    let BarrierAnswer::Unwritten(id) = live.barrier(rt, client) else {
        return false;
    };
    let bad = live.carry_in(client, b"3;");
    id.version == 9 && matches!(bad, Err(CarryFault::Bad(BaggageFault::BadHead)))
}

// Whether the two clients see of one another what is carried.
fn sees_what_is_carried<R: Wait + AllocGlobal>(rt: &R) -> bool {
    let Some((live, mut first)) = started(rt.alloc()) else {
        return false;
    };
    if write(rt, &live, &mut first, b"p1", b"a") != Some(1) {
        return false;
    }
    let Ok(text) = live.carry_out(&first) else {
        return false;
    };
    if text.bytes() != b"2;posts/p1@1".as_slice() || first.room() == 0 {
        return false;
    }
    let Ok(mut second) = live.split(&mut first, 0) else {
        return false;
    };
    if live.carry_in(&mut second, text.bytes()).is_err() {
        return false;
    }
    if !waits_for_the_shipment(rt, &live, &mut first, &mut second) {
        return false;
    }
    if !carries_texts(rt, &live, &mut second) {
        return false;
    }
    let Err((live, mut first)) = live.close(first) else {
        return false;
    };
    live.join(&mut first, second);
    match live.close(first) {
        Ok(kepts) => kepts.len() == 1 && kepts.at(0).1.len() == 5,
        Err(_) => false,
    }
}

// Takes over so many versions of a key of the store 5, which is not there, each as a row without a lineage.
fn takes_over(alloc: Global, client: &mut Client, versions: u64) -> bool
    ensures { (live : LiveView) → IsOf live client.old → IsOf live client.new }
{
    let Ok(key) = Name::new(b"k") else {
        return false;
    };
    for version in 1..=versions {
        let Ok(value) = Value::new(alloc, b"v") else {
            return false;
        };
        let row = Row {
            key,
            version,
            value,
            lineage: Lineage::root(alloc),
        };
        if client.transfer(5, &row).is_err() {
            return false;
        }
    }
    true
}

// Whether a client that carries as many ids as a lineage may have takes no other, and names the first whose store is not there.
fn holds_no_more<R: Wait + AllocGlobal>(rt: &R) -> bool {
    let Some((live, mut client)) = started(rt.alloc()) else {
        return false;
    };
    if !takes_over(rt.alloc(), &mut client, MOST_IDS as u64) {
        return false;
    }
    let full = live.carry_in(&mut client, b"1;posts/zz@9");
    if !matches!(full, Err(CarryFault::Full)) {
        return false;
    }
    if client.lineage().len() != MOST_IDS as u32 {
        return false;
    }
    let Err(CarryOutFault::NoStore(id)) = live.carry_out(&client) else {
        return false;
    };
    id.store == 5 && id.version == 1
}

#[test]
fn a_client_carries_no_more_than_a_lineage_may_have(rt: HostRuntime) {
    assert!(&rt; holds_no_more(&rt));
}

#[test]
fn clients_see_what_is_carried(rt: HostRuntime) {
    assert!(&rt; sees_what_is_carried(&rt));
}
