// What passes are told of regions without the turn.
ghost use Rattle.std.specs.Prelude.{◌≡◌, IfSome};

use crate::made::assert_so;
use crate::shared::{shared_store, split};
use crate::steps::{Asked, Told, call_of, is_answered};
use anti_kind::{Actor, Machine};
use anti_kv::Kv;
use anti_shared::{Pass, Shared};
use std::alloc::Global;
use std::sync::Wait;

// Who does something: the first pass, or another that was split off it before.
#[derive(Clone, Copy)]
enum Who {
    First,
    Other,
}

// What a pass does.
enum Does {
    // It asks this in a region, and is told that.
    Call(u32, Asked<'static>, Told<'static>),
    // It asks how far a region has everything, and is told this.
    Upto(u32, u64),
}

struct Step(Who, Does);

// Whether a pass is told this of a region.
fn is_told<M: Machine>(shared: &Shared<M>, pass: &mut Pass<M>, region: u32, upto: u64) -> bool
    requires { pass.old.id ≡ shared.now.id }
    ensures { pass.new.id ≡ pass.old.id }
{
    region < 8 && shared.upto(pass, region) == upto
}

// Whether a pass does what it is to do, and is answered so.
fn is_done<M: Machine, R: Wait + AllocGlobal>(
    rt: &R,
    shared: &Shared<M>,
    pass: &mut Pass<M>,
    does: &Does,
) -> bool
    requires { pass.old.id ≡ shared.now.id }
    ensures { pass.new.id ≡ pass.old.id }
{
    match does {
        Does::Upto(region, upto) => is_told(shared, pass, *region, *upto),
        Does::Call(region, asked, told) => {
            let Some(call) = call_of(rt.alloc(), *region, *asked) else {
                return false;
            };
            is_answered(&shared.call(rt, pass, Actor::Carrier(0), 0, 0, call), *told)
        }
    }
}

// Whether each step goes as it says.
fn all_go<M: Machine, R: Wait + AllocGlobal>(
    rt: &R,
    shared: &Shared<M>,
    first: &mut Pass<M>,
    other: &mut Pass<M>,
    steps: &[Step],
) -> bool
    requires first { first.old.id ≡ shared.now.id }
    requires other { other.old.id ≡ shared.now.id }
    ensures first { first.new.id ≡ first.old.id }
    ensures other { other.new.id ≡ other.old.id }
{
    for step in steps {
        let well = match step.0 {
            Who::First => is_done(rt, shared, first, &step.1),
            Who::Other => is_done(rt, shared, other, &step.1),
        };
        if !well {
            return false;
        }
    }
    true
}

// Whether the steps go as they say, the first of them by a pass and another that is split off it at once; and the last ones, once that is
// joined into it, by the pass and one that is split off then.
fn is_well<M: Machine + Drop, R: Wait + AllocGlobal>(
    rt: &R,
    made: Option<(Shared<M>, Pass<M>)>,
    apart: &[Step],
    joined: &[Step],
) -> bool
    requires { IfSome made (λ m. m.1.id ≡ m.0.id) }
{
    let Some((shared, mut first)) = made else {
        return false;
    };
    let Some(mut other) = split(&shared, &mut first) else {
        return false;
    };
    let well = all_go(rt, &shared, &mut first, &mut other, apart);
    shared.join(&mut first, other);
    let Some(mut other) = split(&shared, &mut first) else {
        return false;
    };
    let as_well = all_go(rt, &shared, &mut first, &mut other, joined);
    shared.join(&mut first, other);
    well && as_well && shared.close(first).is_ok()
}

// The store 0, with replicas in the regions 0 and 3, shared, and its first pass. `None` where memory runs out.
fn store_of_two(alloc: Global) -> Option<(Shared<Kv>, Pass<Kv>)>
    ensures { IfSome result (λ made. made.1.id ≡ made.0.id) }
{
    let Ok(store) = Kv::new(alloc, 0, &[0, 3]) else {
        return None;
    };
    match Shared::new(alloc, 0, store) {
        Ok(made) => Some(made),
        Err(_) => None,
    }
}

// Three versions are brought, the last one first. The other pass makes no call, and is told all the same.
static BROUGHT: [Step; 10] = [
    Step(
        Who::First,
        Does::Call(0, Asked::Write(b"a", b"v", &[]), Told::Wrote(b"a", 1)),
    ),
    Step(
        Who::First,
        Does::Call(0, Asked::Write(b"b", b"v", &[]), Told::Wrote(b"b", 2)),
    ),
    Step(
        Who::First,
        Does::Call(0, Asked::Write(b"c", b"v", &[]), Told::Wrote(b"c", 3)),
    ),
    Step(Who::Other, Does::Upto(0, 0)),
    Step(Who::First, Does::Call(0, Asked::Ship(3, 1), Told::Moved)),
    Step(Who::Other, Does::Upto(0, 0)),
    Step(Who::First, Does::Call(0, Asked::Ship(1, 1), Told::Moved)),
    Step(Who::Other, Does::Upto(0, 1)),
    Step(Who::First, Does::Call(0, Asked::Ship(2, 1), Told::Moved)),
    Step(Who::Other, Does::Upto(0, 3)),
];

// What it was told it then finds.
static FOUND: [Step; 6] = [
    Step(Who::Other, Does::Upto(0, 3)),
    Step(
        Who::Other,
        Does::Call(0, Asked::Read(b"a"), Told::Rows(&[(b"a", 1, b"v")])),
    ),
    Step(
        Who::Other,
        Does::Call(0, Asked::Read(b"b"), Told::Rows(&[(b"b", 2, b"v")])),
    ),
    Step(
        Who::Other,
        Does::Call(0, Asked::Read(b"c"), Told::Rows(&[(b"c", 3, b"v")])),
    ),
    Step(Who::Other, Does::Upto(0, 3)),
    Step(Who::First, Does::Upto(0, 3)),
];

#[test]
fn a_pass_is_told_without_a_call(rt: HostRuntime) {
    assert_so(
        &rt,
        is_well(&rt, shared_store(rt.alloc()), &BROUGHT, &FOUND),
    );
}

// Each pass brings versions to a region of its own, and is told of both.
static APART: [Step; 11] = [
    Step(
        Who::First,
        Does::Call(0, Asked::Write(b"a", b"v", &[]), Told::Wrote(b"a", 1)),
    ),
    Step(
        Who::Other,
        Does::Call(0, Asked::Write(b"b", b"v", &[]), Told::Wrote(b"b", 2)),
    ),
    Step(Who::First, Does::Call(0, Asked::Ship(1, 1), Told::Moved)),
    Step(Who::Other, Does::Call(3, Asked::Ship(1, 1), Told::Moved)),
    Step(Who::Other, Does::Call(3, Asked::Ship(2, 1), Told::Moved)),
    Step(Who::First, Does::Upto(0, 1)),
    Step(Who::First, Does::Upto(3, 2)),
    Step(Who::Other, Does::Upto(0, 1)),
    Step(Who::Other, Does::Upto(3, 2)),
    Step(Who::Other, Does::Upto(1, 0)),
    Step(Who::First, Does::Upto(7, 0)),
];

// After the join both are told of both, and of what comes then.
static JOINED: [Step; 6] = [
    Step(Who::First, Does::Upto(3, 2)),
    Step(Who::Other, Does::Upto(0, 1)),
    Step(Who::Other, Does::Call(0, Asked::Ship(2, 1), Told::Moved)),
    Step(Who::First, Does::Upto(0, 2)),
    Step(
        Who::First,
        Does::Call(3, Asked::Read(b"b"), Told::Rows(&[(b"b", 2, b"v")])),
    ),
    Step(Who::Other, Does::Upto(3, 2)),
];

#[test]
fn passes_are_told_of_each_region(rt: HostRuntime) {
    assert_so(&rt, is_well(&rt, store_of_two(rt.alloc()), &APART, &JOINED));
}
