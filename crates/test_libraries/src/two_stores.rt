// Barriers and dry runs over two stores: they end at the first refusal, ask no store behind it, and leave the looks that were made.
ghost use Rattle.std.specs.Prelude.{◌≡◌, ℕ, [], ◌∷◌};
ghost use Rattle.anti_shim.specs.Sights.{IsHere};

use crate::made::{Version, assert_right};
use crate::ports::{OfPort, READ, SHIP, Told, WRITE, answers};
use anti_kind::{Lone, Pair, Port};
use anti_kv::Kv;
use std::alloc::Global;

// What is asked of a port over the stores 0 and 1, and what is told.
struct Step<'a>(OfPort<'a>, Told<'a>);

// The first versions of both stores.
const FIRST: &[Version] = &[(b"k", 1)];

// The first of these steps that does not go as it says. `None` where each does.
fn wrong_step_at<P: Port>(alloc: Global, port: &mut P, steps: &[Step]) -> Option<usize>
    requires { IsHere (P.start port.old) 0 (0 ∷ 1 ∷ []) }
{
    for (place, step) in steps.iter().enumerate() {
        if !answers(alloc, port, &[0, 1], &step.0, &step.1) {
            return Some(place);
        }
    }
    None
}

// Such a step at two stores that are at their start, or the first where memory runs out before.
fn wrong_step(alloc: Global, steps: &[Step]) -> Option<usize> {
    let Ok(first) = Kv::new(alloc, 0, &[0]) else {
        return Some(0);
    };
    let Ok(first) = Lone::new(alloc, 0, first) else {
        return Some(0);
    };
    let Ok(second) = Kv::new(alloc, 1, &[0]) else {
        return Some(0);
    };
    let Ok(second) = Lone::new(alloc, 1, second) else {
        return Some(0);
    };
    let mut port = Pair { first, second };
    wrong_step_at(alloc, &mut port, steps)
}

// What nobody wrote, and then a caller without a stamp. The dry run of a caller with the stamp before the last makes its look at the first
// store, which then has no stamp left.
static FIRST_REFUSES: [Step; 9] = [
    Step(OfPort::Barrier(FIRST, 0), Told::Unwritten(b"k", 1)),
    Step(OfPort::Barrier(FIRST, u64::MAX), Told::Spent(u64::MAX)),
    Step(OfPort::DryRun(FIRST, u64::MAX), Told::Spent(u64::MAX)),
    Step(OfPort::Call(0, READ, 0), Told::MadeAt(2)),
    Step(OfPort::Call(1, READ, 0), Told::MadeAt(1)),
    Step(OfPort::DryRun(FIRST, u64::MAX - 1), Told::Spent(u64::MAX)),
    Step(OfPort::Call(0, READ, 0), Told::Spent(u64::MAX)),
    Step(OfPort::Call(1, READ, 0), Told::MadeAt(2)),
    Step(OfPort::Barrier(FIRST, 0), Told::Spent(u64::MAX)),
];

#[test]
fn no_store_is_asked_behind_a_refusal(rt: HostRuntime) {
    assert_right(&rt, wrong_step(rt.alloc(), &FIRST_REFUSES));
}

// What was written to both stores, and brought of the first alone at first.
static SECOND_REFUSES: [Step; 12] = [
    Step(OfPort::Call(0, WRITE, 0), Told::MadeAt(1)),
    Step(OfPort::Call(1, WRITE, 0), Told::MadeAt(1)),
    Step(OfPort::Call(0, SHIP, 0), Told::MadeAt(2)),
    Step(OfPort::Barrier(FIRST, 0), Told::NotYet),
    Step(OfPort::Call(0, READ, 0), Told::MadeAt(4)),
    Step(OfPort::Call(1, READ, 0), Told::MadeAt(2)),
    Step(OfPort::DryRun(FIRST, 0), Told::Count(1)),
    Step(OfPort::Call(1, SHIP, 0), Told::MadeAt(4)),
    Step(OfPort::Barrier(FIRST, 0), Told::Count(2)),
    Step(OfPort::DryRun(FIRST, 0), Told::Count(0)),
    Step(OfPort::Call(0, READ, 0), Told::MadeAt(8)),
    Step(OfPort::Call(1, READ, 0), Told::MadeAt(7)),
];

#[test]
fn looks_that_were_made_stand(rt: HostRuntime) {
    assert_right(&rt, wrong_step(rt.alloc(), &SECOND_REFUSES));
}
