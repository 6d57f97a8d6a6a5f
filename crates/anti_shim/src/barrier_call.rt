ghost use Rattle.std.specs.Prelude.{◌≡◌, ℕ, true};
ghost use Rattle.anti_shim.specs.Plans.{plan};
ghost use Rattle.anti_shim.specs.Steps.{between};
ghost use Rattle.anti_shim.specs.Sights.{IsHere, HasSights};
ghost use Rattle.anti_shim.specs.Barriers.{BarrierDoes};

use crate::asks::{Asks, Once, UntilReady};
use crate::barrier_answer::BarrierAnswer;
use crate::barrier_cursor::Barrier;
use crate::caller::Caller;
use crate::looks::plan;
use anti_ids::Lineage;
use anti_kind::{Port, Refusal, WaitPort};
use std::alloc::Global;

/// Looks at the stores of `here` of which the lineage has ids and of which the cursor has no sight,
/// up to the first refusal, if there is one. The stores `here` have a replica in the region, and
/// stand in ascending order. The sights of the cursor are those that earlier calls with the same
/// port, lineage and region have left in it; on every answer but `Clear` it keeps what was seen.
pub fn barrier<P: Port>(
    alloc: Global,
    port: &mut P,
    who: &mut Caller,
    region: u32,
    here: &[u32],
    lineage: &Lineage,
    cursor: &mut Barrier,
) -> BarrierAnswer
    requires here { IsHere (P.start port.old) region here.now }
    requires sights { HasSights (P.view port.old) who.old region (plan here.now lineage.now) cursor.old }
    ensures answer { let step = between P.Port port.old port.new who.old who.new in
        BarrierDoes step region (plan here.now lineage.now) cursor.old cursor.new result }
    ensures fixed { (o : ℕ) → P.start port.new o ≡ P.start port.old o }
    ensures rest { P.rest port.new ≡ P.rest port.old }
{
    let wanted = Wanted {
        region,
        here,
        lineage,
    };
    go_over::<P, Once>(alloc, port, who, wanted, cursor)
}

/// As `barrier`, over a port whose calls may wait: each look is made once it is ready. It may wait,
/// and is never refused as not ready.
pub fn barrier_wait<P: WaitPort>(
    alloc: Global,
    port: &mut P,
    who: &mut Caller,
    region: u32,
    here: &[u32],
    lineage: &Lineage,
    cursor: &mut Barrier,
) -> BarrierAnswer
    requires here { IsHere (P.start port.old) region here.now }
    requires sights { HasSights (P.view port.old) who.old region (plan here.now lineage.now) cursor.old }
    ensures answer { let step = between P.Port port.old port.new who.old who.new in
        BarrierDoes step region (plan here.now lineage.now) cursor.old cursor.new result }
    ensures waits { result ≡ BarrierAnswer.Refused Refusal.NotYet → ⊥ }
    ensures fixed { (o : ℕ) → P.start port.new o ≡ P.start port.old o }
    ensures rest { P.rest port.new ≡ P.rest port.old }
{
    let wanted = Wanted {
        region,
        here,
        lineage,
    };
    go_over::<P, UntilReady>(alloc, port, who, wanted, cursor)
}

// What a barrier waits for: that the ids of the lineage are visible in the region, each at its store
// of `here`.
#[derive(Drop)]
struct Wanted<'a> {
    region: u32,
    here: &'a [u32],
    lineage: &'a Lineage,
}

// A barrier over a port that is asked so.
fn go_over<P: Port, A: Asks<P>>(
    alloc: Global,
    port: &mut P,
    who: &mut Caller,
    wanted: Wanted,
    cursor: &mut Barrier,
) -> BarrierAnswer
    requires here { IsHere (P.start port.old) wanted.region wanted.here.now }
    requires sights { HasSights (P.view port.old) who.old wanted.region (plan wanted.here.now wanted.lineage.now) cursor.old }
    ensures answer { let step = between P.Port port.old port.new who.old who.new in
        BarrierDoes step wanted.entry.region (plan wanted.entry.here.now wanted.entry.lineage.now) cursor.old cursor.new result }
    ensures waits { A.waits ≡ true → result ≡ BarrierAnswer.Refused Refusal.NotYet → ⊥ }
    ensures fixed { (o : ℕ) → P.start port.new o ≡ P.start port.old o }
    ensures rest { P.rest port.new ≡ P.rest port.old }
{
    let Ok(looks) = plan(alloc, wanted.here, wanted.lineage) else {
        return BarrierAnswer::NoMemory;
    };
    for look in looks.as_slice() {
        if cursor.has(look.store) {
            continue;
        }
        if let Err(fault) = cursor.look::<P, A>(port, who, wanted.region, look) {
            return BarrierAnswer::refused(fault);
        }
    }
    BarrierAnswer::Clear(cursor.take(alloc))
}
