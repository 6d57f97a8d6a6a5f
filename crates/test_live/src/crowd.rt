// Eight clients on four threads, two on each, which make 2,000 calls on three stores.
ghost use Rattle.std.specs.Prelude.{◌<◌, IfSome};
ghost use Rattle.anti_live.specs.Clients.{IsOf, LiveView};
ghost use Rattle.test_live.specs.Three.{AreThree};

use crate::asking::asks;
use crate::closed::close_well;
use crate::stores::three_started;
use crate::worker::{Tally, Worker};
use anti_live::{CarryFault, Client, Live};
use std::alloc::AllocGlobal;
use std::process::Abort;
use std::sync::Wait;
use std::thread::{Threads, join};

// How many calls each thread makes.
const CALLS: u32 = 500;

// A further client in this region, which has a number below 2.
fn split(live: &Live, client: &mut Client, region: u32) -> Option<Client>
    requires of { IsOf live.now client.old }
    requires region { region < 2 }
    ensures rest { IsOf live.now client.new }
    ensures new { IfSome result (λ new. IsOf live.now new) }
{
    if client.room() == 0 {
        return None;
    }
    match live.split(client, region) {
        Ok(new) => Some(new),
        Err(_) => None,
    }
}

// Takes over by a text what another client carries, where that is not too much, and tells whether the text is one.
fn takes_over(live: &Live, client: &mut Client, other: &Client) -> bool
    requires { IsOf live.now client.old }
    ensures { IsOf live.now client.new }
{
    let Ok(text) = live.carry_out(other) else {
        return false;
    };
    match live.carry_in(client, text.bytes()) {
        Ok(()) => true,
        Err(CarryFault::Full) => true,
        Err(_) => false,
    }
}

// Begins the next span, where there is one, with nothing to carry.
fn begins(client: &mut Client) -> bool
    ensures { (live : LiveView) → IsOf live client.old → IsOf live client.new }
{
    if client.span() == u32::MAX {
        return false;
    }
    client.root();
    true
}

// What the two clients of a thread do before a call: mostly nothing. It tells whether that went well.
fn prepares(live: &Live, first: &mut Client, second: &mut Client, worker: &mut Worker) -> bool
    requires first { IsOf live.now first.old }
    requires second { IsOf live.now second.old }
    ensures first { IsOf live.now first.new }
    ensures second { IsOf live.now second.new }
{
    match worker.below(12) {
        0 => begins(first),
        1 => begins(second),
        2 => takes_over(live, first, second),
        3 => takes_over(live, second, first),
        _ => true,
    }
}

// One call of the two clients of a thread. Before it the second is joined into the first at times, and another split off in its place.
// There is none at the end where that was refused.
fn turn<R: Wait + AllocGlobal>(
    rt: &R,
    live: &Live,
    first: &mut Client,
    mut second: Client,
    worker: &mut Worker,
    tally: &mut Tally,
) -> Option<Client>
    requires first { IsOf live.now first.old }
    requires second { IsOf live.now second }
    requires stores { AreThree live.now.stores }
    ensures first { IsOf live.now first.new }
    ensures second { IfSome result (λ new. IsOf live.now new) }
{
    if worker.below(16) == 0 {
        live.join(first, second);
        second = split(live, first, worker.below(2))?;
    }
    if !prepares(live, first, &mut second, worker) {
        tally.well = false;
    }
    let made = if worker.below(2) == 0 {
        asks(rt, live, first, worker)
    } else {
        asks(rt, live, &mut second, worker)
    };
    tally.count(made);
    Some(second)
}

// A thread, of a number, that splits its client in two and makes its calls by both.
fn work<R: Wait + AllocGlobal>(
    rt: &R,
    live: &Live,
    mut first: Client,
    number: u64,
) -> (Client, Tally)
    requires of { IsOf live.now first }
    requires stores { AreThree live.now.stores }
    ensures { IsOf live.now result.0 }
{
    let mut worker = Worker::new(number);
    let mut tally = Tally::none(true);
    let Some(mut second) = split(live, &mut first, 1) else {
        return (first, Tally::none(false));
    };
    for _ in 0..CALLS {
        let Some(next) = turn(rt, live, &mut first, second, &mut worker, &mut tally) else {
            return (first, Tally::none(false));
        };
        second = next;
    }
    live.join(&mut first, second);
    (first, tally)
}

// Two threads, of this number and the next.
fn work_two<R: Threads + Wait + Sync + AllocGlobal>(
    rt: &R,
    live: &Live,
    mut first: Client,
    number: u64,
) -> (Client, Tally)
    requires of { IsOf live.now first }
    requires stores { AreThree live.now.stores }
    ensures { IsOf live.now result.0 }
{
    let Some(second) = split(live, &mut first, 1) else {
        return (first, Tally::none(false));
    };
    let next = number.saturating_add(1);
    let ((mut first, one), (second, other)) = join(
        rt,
        ||
            requires { IsOf live.now first × AreThree live.now.stores }
        { work(rt, live, first, number) },
        ||
            requires { IsOf live.now second × AreThree live.now.stores }
        { work(rt, live, second, next) },
    );
    live.join(&mut first, second);
    (first, one.with(other))
}

// Twice two threads.
fn work_four<R: Threads + Wait + Sync + AllocGlobal>(
    rt: &R,
    live: &Live,
    mut first: Client,
) -> (Client, Tally)
    requires of { IsOf live.now first }
    requires stores { AreThree live.now.stores }
    ensures { IsOf live.now result.0 }
{
    let Some(second) = split(live, &mut first, 0) else {
        return (first, Tally::none(false));
    };
    let ((mut first, one), (second, other)) = join(
        rt,
        ||
            requires { IsOf live.now first × AreThree live.now.stores }
        { work_two(rt, live, first, 0) },
        ||
            requires { IsOf live.now second × AreThree live.now.stores }
        { work_two(rt, live, second, 2) },
    );
    live.join(&mut first, second);
    (first, one.with(other))
}

// Whether all calls are answered as they may be, and the closed histories have just those that were made.
fn works_well<R: Threads + Wait + Sync + AllocGlobal>(rt: &R) -> bool {
    let Some((live, first)) = three_started(rt.alloc()) else {
        return false;
    };
    let (first, tally) = work_four(rt, &live, first);
    tally.well && tally.asked == 4 * CALLS && close_well(rt.alloc(), live, first, tally.made)
}

#[test]
fn eight_clients_on_four_threads_end_with_legal_histories(rt: HostRuntime) {
    assert!(&rt; works_well(&rt));
}
