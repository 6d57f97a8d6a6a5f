ghost use Rattle.std.specs.Prelude.{◌≡◌, ◌<◌, ℕ, true, is_some, IfOk, Some};
ghost use Rattle.anti_kind.specs.Ports.{first_start};
ghost use Rattle.anti_kind.specs.Starts.{IsStart};
ghost use Rattle.anti_kv.specs.KvStates.{its_start, kv_start};
ghost use Rattle.anti_shared.specs.Passes.{first_pass, port_start, rest_of, start_of};
ghost use Rattle.anti_shim.specs.Sights.{IsHere};

use anti_ids::{Lineage, NoMemory};
use anti_kind::{Actor, Answer, Call, Pair, Refusal};
use anti_kv::Kv;
use anti_shared::{Pass, Shared, SharedPort};
use anti_shim::{Barrier, BarrierAnswer, Caller, barrier_wait};
use std::alloc::Global;
use std::sync::Wait;
use std::thread::{Threads, join};

/// A key-value store of this number that threads share, with a replica in each of these regions. Beside it comes the first pass.
pub fn share_kv(
    alloc: Global,
    store: u32,
    regions: &[u32],
) -> Result<(Shared<Kv>, Pass<Kv>), NoMemory>
    requires { IsStart (kv_start store regions.now) }
    ensures pass { IfOk result (λ made. made.1 ≡ first_pass made.0.id) }
    ensures number { IfOk result (λ made. made.0.id.object ≡ store) }
    ensures start { IfOk result (λ made. start_of its_start made.0.id ≡ Some (kv_start store regions.now)) }
{
    let kv = Kv::new(alloc, store, regions)?;
    match Shared::new(alloc, store, kv) {
        Ok(made) => Ok(made),
        Err(_) => Err(NoMemory),
    }
}

/// Waits until all that is carried is visible in a region, at two stores that threads share.
pub fn wait_at_both<R: Wait>(
    rt: &R,
    alloc: Global,
    posts: &Shared<Kv>,
    by: &mut Pass<Kv>,
    notes: &Shared<Kv>,
    beside: &mut Pass<Kv>,
    who: &mut Caller,
    region: u32,
    here: &[u32],
    lineage: &Lineage,
) -> BarrierAnswer
    requires posts { by.old.id ≡ posts.now.id }
    requires notes { beside.old.id ≡ notes.now.id }
    requires here { IsHere (λ o. first_start (port_start its_start by.old o) (port_start its_start beside.old o)) region here.now }
    ensures waits { result ≡ BarrierAnswer.Refused Refusal.NotYet → ⊥ }
    ensures by { rest_of by.new ≡ rest_of by.old }
    ensures beside { rest_of beside.new ≡ rest_of beside.old }
{
    let mut port = Pair {
        first: SharedPort::new(rt, posts, by),
        second: SharedPort::new(rt, notes, beside),
    };
    let mut cursor = Barrier::begin(alloc);
    let answer = barrier_wait(alloc, &mut port, who, region, here, lineage, &mut cursor);
    let Pair { first, second } = port;
    let _by = first.end();
    let _beside = second.end();
    answer
}

// What each of the two threads does.
fn ask<R: Wait>(rt: &R, store: &Shared<Kv>, mut pass: Pass<Kv>, call: Call) -> (Pass<Kv>, Answer)
    requires { pass.id ≡ store.now.id }
    ensures id { result.0.id ≡ store.now.id }
    ensures room { result.0.room ≡ pass.room }
{
    let actor = Actor::Carrier(pass.number());
    let answer = store.call_wait(rt, &mut pass, actor, 0, 0, call);
    (pass, answer)
}

/// Makes two calls on a store side by side, each once it is ready: `one` may wait for what `other` does. The passes of both threads are one
/// again behind it.
pub fn side_by_side<R: Threads + Wait + Sync>(
    rt: &R,
    store: &Shared<Kv>,
    mut pass: Pass<Kv>,
    one: Call,
    other: Call,
) -> (Pass<Kv>, Answer, Answer)
    requires of { pass.id ≡ store.now.id }
    requires room { 0 < pass.room }
    ensures { result.0.id ≡ store.now.id }
{
    let Ok(part) = store.split(&mut pass) else {
        unreachable!() // there is room
    };
    let ((mut pass, answer), (part, further)) = join(
        rt,
        || ask(rt, store, pass, one),
        || ask(rt, store, part, other),
    );
    store.join(&mut pass, part);
    (pass, answer, further)
}
