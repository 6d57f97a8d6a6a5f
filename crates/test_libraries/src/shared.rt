ghost use Rattle.std.specs.Prelude.{◌≡◌, ℕ, ◌<◌, ◌∷◌, [], Some, IfSome};
ghost use Rattle.anti_kv.specs.KvStates.{its_start, kv_start};
ghost use Rattle.anti_shared.specs.Passes.{first_pass, port_start};
ghost use Rattle.anti_shim.specs.Sights.{IsHere};

use crate::made::{assert_so, lineage, versions};
use crate::ports::{
    OfPort, READ, SHIP, Told, WRITE, answers, caller, is_answered, is_held, writes,
};
use crate::steps::{Asked, call_of};
use anti_ids::MOST_IDS;
use anti_kind::{Actor, Answer, Call, Entry, Machine, Port, Reply, WaitPort};
use anti_kv::Kv;
use anti_shared::{Pass, Shared, SharedPort};
use anti_shim::{Barrier, KvStore, barrier_wait};
use std::alloc::Global;
use std::sync::Wait;
use std::thread::{Threads, join};

// The call that is asked; where it brings a version or writes to the key of a number, this one.
fn call_at(alloc: Global, asked: Asked, number: u64) -> Option<Call> {
    match asked {
        Asked::Ship(_, part) => call_of(alloc, 0, Asked::Ship(number, part)),
        Asked::WriteNth(_) => call_of(alloc, 0, Asked::WriteNth(number)),
        _ => call_of(alloc, 0, asked),
    }
}

// The store 0, of which the only replica is in region 0, shared, and its first pass. `None` where memory runs out.
pub(crate) fn shared_store(alloc: Global) -> Option<(Shared<Kv>, Pass<Kv>)>
    ensures of { IfSome result (λ made. made.1.id ≡ made.0.id) }
    ensures room { IfSome result (λ made. 0 < made.1.room) }
    ensures start { IfSome result (λ made. port_start its_start (first_pass made.0.id) 0 ≡ Some (kv_start 0 (0 ∷ []))) }
{
    let Ok(store) = Kv::new(alloc, 0, &[0]) else {
        return None;
    };
    match Shared::new(alloc, 0, store) {
        Ok(made) => Some(made),
        Err(_) => None,
    }
}

// Whether the entries of a pass have the spans 0, 1, 2 and so on, one for each of so many calls of a thread.
fn are_in_order(history: &[Entry], number: u32, calls: u32) -> bool {
    let mut next: u32 = 0;
    for entry in history {
        if entry.seat == number {
            if entry.span != next {
                return false;
            }
            next = next.saturating_add(1);
        }
    }
    next == calls
}

// The history that is wanted at the end.
#[derive(Clone, Copy)]
enum Wanted {
    // Each of the passes up to this number has made so many calls, which stand in their order.
    InOrder(u32, u32),
    // Two calls, of the passes with these numbers.
    Two(u32, u32),
    // So many calls.
    Calls(usize),
    // None, since a pass is still out.
    StillOut,
}

// Whether there are so many calls of each of the passes up to a number, in their order, and no others.
fn are_all_in_order(history: &[Entry], passes: u32, calls: u32) -> bool {
    for before in 0..passes {
        if !are_in_order(history, before + 1, calls) {
            return false;
        }
    }
    history.len() as u64 == passes as u64 * calls as u64
}

// Whether a history is the one that is wanted.
fn is_wanted(history: &[Entry], wanted: Wanted) -> bool {
    match wanted {
        Wanted::InOrder(passes, calls) => are_all_in_order(history, passes, calls),
        Wanted::Two(first, second) => match history {
            [one, other] => one.seat == first && other.seat == second,
            _ => false,
        },
        Wanted::Calls(count) => history.len() == count,
        Wanted::StillOut => false,
    }
}

// Whether the history is the one that is wanted, and the state holds a unit for each call.
fn ends<M: Machine + Drop>(shared: Shared<M>, pass: Pass<M>, wanted: Wanted) -> bool
    requires { pass.id ≡ shared.id }
{
    let Ok(kept) = shared.close(pass) else {
        return matches!(wanted, Wanted::StillOut);
    };
    let is_so = is_wanted(kept.history().as_slice(), wanted);
    let held = kept.state().held();
    let (_state, history) = kept.into_parts();
    is_so && history.len() == held as usize
}

// Whether a pass has this number and this room.
fn has(pass: &Pass<Kv>, number: u32, room: u64) -> bool {
    pass.number() == number && pass.room() == room
}

// Whether a first pass is alone but while a second is out, and what numbers and room both have.
fn is_alone_but_while_a_second_is_out(alloc: Global) -> bool {
    let Some((shared, mut first)) = shared_store(alloc) else {
        return false;
    };
    let before = shared.alone(&mut first) && has(&first, 1, 4_294_967_294);
    let Ok(second) = shared.split(&mut first) else {
        // by `never_err` of `split`
        unreachable!()
    };
    let between = !shared.alone(&mut first)
        && has(&first, 1, 2_147_483_647)
        && has(&second, 2, 2_147_483_646);
    let Err((shared, mut first)) = shared.close(first) else {
        return false;
    };
    shared.join(&mut first, second);
    let behind = shared.alone(&mut first) && has(&first, 1, 4_294_967_293);
    before && between && behind && ends(shared, first, Wanted::Calls(0))
}

#[test]
fn a_pass_is_alone_but_while_a_second_is_out(rt: HostRuntime) {
    assert_so(&rt, is_alone_but_while_a_second_is_out(rt.alloc()));
}

// What is asked, how often, and what is told each time. The nth call brings the version n or writes to the key of the number n, where it
// does either.
struct Row(Asked<'static>, u64, Told<'static>);

// Whether what a row asks is told so.
fn is_row_told<M: Machine, R: Wait + AllocGlobal>(
    rt: &R,
    shared: &Shared<M>,
    pass: &mut Pass<M>,
    row: &Row,
) -> bool
    requires { pass.old.id ≡ shared.now.id }
    ensures { pass.new.id ≡ pass.old.id }
{
    for before in 0..row.1 {
        let Some(call) = call_at(rt.alloc(), row.0, before + 1) else {
            return false;
        };
        let told = is_answered(
            &shared.call(rt, pass, Actor::Carrier(0), 0, 0, call),
            &row.2,
        );
        if !told {
            return false;
        }
    }
    true
}

// Whether what these rows ask is told so.
fn are_rows_told<M: Machine, R: Wait + AllocGlobal>(
    rt: &R,
    shared: &Shared<M>,
    pass: &mut Pass<M>,
    rows: &[Row],
) -> bool
    requires { pass.old.id ≡ shared.now.id }
    ensures { pass.new.id ≡ pass.old.id }
{
    for row in rows {
        if !is_row_told(rt, shared, pass, row) {
            return false;
        }
    }
    true
}

// So many calls, as a carrier, each in a span of its own. The first asks one thing, the next the other, and so on.
struct Plan {
    carrier: u32,
    calls: u32,
    asked: Asked<'static>,
    other: Asked<'static>,
}

// The version that a call wrote, or the last one before it. `None` where the call was not made.
fn written(answer: &Answer, last: u64) -> Option<u64> {
    match answer {
        Answer::Made {
            reply: Reply::Written { version, .. },
            ..
        } => Some(*version),
        Answer::Made { .. } => Some(last),
        _ => None,
    }
}

// Makes a call, and waits for it where it brings a version. It answers as `written`.
fn make<M: Machine, R: Wait>(
    rt: &R,
    shared: &Shared<M>,
    pass: &mut Pass<M>,
    carrier: u32,
    span: u32,
    call: Call,
    last: u64,
) -> Option<u64>
    requires { pass.old.id ≡ shared.now.id }
    ensures { pass.new.id ≡ pass.old.id }
{
    let who = Actor::Carrier(carrier);
    if matches!(call, Call::Ship { .. }) {
        return written(&shared.call_wait(rt, pass, who, span, 0, call), last);
    }
    written(&shared.call(rt, pass, who, span, 0, call), last)
}

// Whether the calls of a plan are made. The version that was written last, and else the first, is the one that is brought, and the number
// of the key that is written to.
fn are_made<M: Machine, R: Wait + AllocGlobal>(
    rt: &R,
    shared: &Shared<M>,
    pass: &mut Pass<M>,
    plan: &Plan,
) -> bool
    requires { pass.old.id ≡ shared.now.id }
    ensures { pass.new.id ≡ pass.old.id }
{
    let mut version = 1;
    for span in 0..plan.calls {
        let asked = if span % 2 == 0 {
            plan.asked
        } else {
            plan.other
        };
        let Some(call) = call_at(rt.alloc(), asked, version) else {
            return false;
        };
        let Some(last) = make(rt, shared, pass, plan.carrier, span, call, version) else {
            return false;
        };
        version = last;
    }
    true
}

// What a port over a shared store is asked, as the carrier 0 in the span 0.
enum OfWaitPort {
    // What any port is.
    Port(OfPort<'static>),
    // To make a call that may wait, for an actor with this last stamp.
    CallWait(Asked<'static>, u64),
    // To write with a lineage that is full.
    WriteFull,
    // A barrier on this version of the key, which waits, of a caller with this last stamp.
    BarrierWait(u64, u64),
}

// What is asked, and what is told.
struct Step(OfWaitPort, Told<'static>);

// Whether a call that may wait goes as it says.
fn call_wait_goes<P: WaitPort>(
    alloc: Global,
    port: &mut P,
    asked: Asked,
    clock: u64,
    told: &Told,
) -> bool
    requires { IsHere (P.start port.old) 0 (0 ∷ []) }
    ensures { (o : ℕ) → P.start port.new o ≡ P.start port.old o }
{
    let Some(call) = call_of(alloc, 0, asked) else {
        return false;
    };
    is_answered(&port.call_wait(0, Actor::Carrier(0), 0, clock, call), told)
}

// Whether a write with a lineage that is full goes as it says.
fn full_write_goes<P: Port>(alloc: Global, port: &mut P, told: &Told) -> bool
    requires { IsHere (P.start port.old) 0 (0 ∷ []) }
    ensures { (o : ℕ) → P.start port.new o ≡ P.start port.old o }
{
    match versions(alloc, 1, b"k", MOST_IDS as u64) {
        Ok(mut full) => {
            let mut who = caller(0);
            writes::<KvStore, P>(alloc, port, &mut who, &mut full, b"k", b"v", told)
        }
        Err(_) => false,
    }
}

// Whether a barrier that waits goes as it says.
fn barrier_wait_goes<P: WaitPort>(
    alloc: Global,
    port: &mut P,
    version: u64,
    clock: u64,
    told: &Told,
) -> bool
    requires { IsHere (P.start port.old) 0 (0 ∷ []) }
    ensures { (o : ℕ) → P.start port.new o ≡ P.start port.old o }
{
    let Ok(ids) = lineage(alloc, &[0], &[(b"k", version)]) else {
        return false;
    };
    let mut cursor = Barrier::begin(alloc);
    let answer = barrier_wait(alloc, port, &mut caller(clock), 0, &[0], &ids, &mut cursor);
    is_held(&answer, told)
}

// Whether a step goes as it says.
fn goes<P: WaitPort>(alloc: Global, port: &mut P, step: &Step) -> bool
    requires { IsHere (P.start port.old) 0 (0 ∷ []) }
    ensures { (o : ℕ) → P.start port.new o ≡ P.start port.old o }
{
    let told = &step.1;
    match &step.0 {
        OfWaitPort::Port(asked) => answers(alloc, port, &[0], asked, told),
        OfWaitPort::CallWait(asked, clock) => call_wait_goes(alloc, port, *asked, *clock, told),
        OfWaitPort::WriteFull => full_write_goes(alloc, port, told),
        OfWaitPort::BarrierWait(version, clock) => {
            barrier_wait_goes(alloc, port, *version, *clock, told)
        }
    }
}

// Whether each step goes as it says.
fn all_go<P: WaitPort>(alloc: Global, port: &mut P, steps: &[Step]) -> bool
    requires { IsHere (P.start port.old) 0 (0 ∷ []) }
{
    for step in steps {
        if !goes(alloc, port, step) {
            return false;
        }
    }
    true
}

// Whether a port over a shared store has this store alone, and each step goes there as it says.
fn all_go_at<M: Machine, R: Wait + AllocGlobal>(
    rt: &R,
    shared: &Shared<M>,
    mut pass: Pass<M>,
    steps: &[Step],
) -> bool
    requires of { pass.id ≡ shared.now.id }
    requires here { IsHere (port_start M.start (first_pass shared.now.id)) 0 (0 ∷ []) }
{
    let mut port = SharedPort::new(rt, shared, &mut pass);
    port.has(0) && !port.has(1) && all_go(rt.alloc(), &mut port, steps)
}

// A further pass, where there is room for one.
pub(crate) fn split<M: Machine>(shared: &Shared<M>, pass: &mut Pass<M>) -> Option<Pass<M>>
    requires { pass.old.id ≡ shared.now.id }
    ensures rest { pass.new.id ≡ pass.old.id }
    ensures new { IfSome result (λ new. new.id ≡ pass.old.id) }
{
    if pass.room() == 0 {
        return None;
    }
    match shared.split(pass) {
        Ok(new) => Some(new),
        Err(_) => None,
    }
}

// What a thread does with a pass.
enum Job {
    // It makes the calls of a plan.
    Plan(Plan),
    // It asks what these rows ask.
    Rows(&'static [Row]),
    // It goes these steps at a port, by a further pass, which then stays out.
    Steps(&'static [Step]),
}

// Does a job, and says whether it goes as it should.
fn work<M: Machine, R: Wait + AllocGlobal>(
    rt: &R,
    shared: &Shared<M>,
    mut pass: Pass<M>,
    job: &Job,
) -> (Pass<M>, bool)
    requires of { pass.id ≡ shared.now.id }
    requires here { IsHere (port_start M.start (first_pass shared.now.id)) 0 (0 ∷ []) }
    ensures { result.0.id ≡ shared.now.id }
{
    match job {
        Job::Plan(plan) => {
            let well = are_made(rt, shared, &mut pass, plan);
            (pass, well)
        }
        Job::Rows(rows) => {
            let well = are_rows_told(rt, shared, &mut pass, rows);
            (pass, well)
        }
        Job::Steps(steps) => {
            let Some(part) = split(shared, &mut pass) else {
                return (pass, false);
            };
            (pass, all_go_at(rt, shared, part, steps))
        }
    }
}

// Two threads do a job each, by two parts of the pass.
fn work_both<M: Machine + Send, R: Threads + Wait + Sync + AllocGlobal>(
    rt: &R,
    shared: &Shared<M>,
    mut pass: Pass<M>,
    job: &Job,
    other: &Job,
) -> (Pass<M>, bool)
    requires of { pass.id ≡ shared.now.id }
    requires here { IsHere (port_start M.start (first_pass shared.now.id)) 0 (0 ∷ []) }
    ensures { result.0.id ≡ shared.now.id }
{
    let Some(part) = split(shared, &mut pass) else {
        return (pass, false);
    };
    let ((mut pass, well), (part, as_well)) = join(
        rt,
        || work(rt, shared, pass, job),
        || work(rt, shared, part, other),
    );
    shared.join(&mut pass, part);
    (pass, well && as_well)
}

// Four threads do the same job.
fn work_all<M: Machine + Send, R: Threads + Wait + Sync + AllocGlobal>(
    rt: &R,
    shared: &Shared<M>,
    mut pass: Pass<M>,
    job: &Job,
) -> (Pass<M>, bool)
    requires of { pass.id ≡ shared.now.id }
    requires here { IsHere (port_start M.start (first_pass shared.now.id)) 0 (0 ∷ []) }
    ensures { result.0.id ≡ shared.now.id }
{
    let Some(part) = split(shared, &mut pass) else {
        return (pass, false);
    };
    let ((mut pass, well), (part, as_well)) = join(
        rt,
        ||
            requires { (pass.id ≡ shared.now.id) × IsHere (port_start M.start (first_pass shared.now.id)) 0 (0 ∷ []) }
        { work_both(rt, shared, pass, job, job) },
        ||
            requires { (part.id ≡ shared.now.id) × IsHere (port_start M.start (first_pass shared.now.id)) 0 (0 ∷ []) }
        { work_both(rt, shared, part, job, job) },
    );
    shared.join(&mut pass, part);
    (pass, well && as_well)
}

// Who does what.
enum Stage {
    // One thread.
    Alone(Job),
    // Two threads, each its own.
    Both(Job, Job),
    // Four threads, each the same.
    All(Job),
}

// Goes through a stage, and says whether all of it goes as it should.
fn go_through<M: Machine + Send, R: Threads + Wait + Sync + AllocGlobal>(
    rt: &R,
    shared: &Shared<M>,
    pass: Pass<M>,
    stage: &Stage,
) -> (Pass<M>, bool)
    requires of { pass.id ≡ shared.now.id }
    requires here { IsHere (port_start M.start (first_pass shared.now.id)) 0 (0 ∷ []) }
    ensures { result.0.id ≡ shared.now.id }
{
    match stage {
        Stage::Alone(job) => work(rt, shared, pass, job),
        Stage::Both(job, other) => work_both(rt, shared, pass, job, other),
        Stage::All(job) => work_all(rt, shared, pass, job),
    }
}

// How many of so many writes are made, up to the first for which memory is refused. `None` where one is refused for another cause.
fn written_before<M: Machine, R: Wait + AllocGlobal>(
    rt: &R,
    shared: &Shared<M>,
    pass: &mut Pass<M>,
    writes: u32,
) -> Option<u32>
    requires { pass.old.id ≡ shared.now.id }
    ensures { pass.new.id ≡ pass.old.id }
{
    for made in 0..writes {
        let Some(call) = call_of(rt.alloc(), 0, WRITE) else {
            return Some(made);
        };
        match shared.call(rt, pass, Actor::Carrier(0), 0, 0, call) {
            Answer::Made { .. } => {}
            Answer::NoMemory => return Some(made),
            _ => return None,
        }
    }
    Some(writes)
}

// Whether a further pass of a new shared store makes some writes, up to the first for which memory is refused, and at the end the history
// and the state have just those.
fn keeps_what_is_made<R: Wait + AllocGlobal>(rt: &R, writes: u32) -> bool {
    let Some((shared, mut pass)) = shared_store(rt.alloc()) else {
        return true;
    };
    let Some(mut part) = split(&shared, &mut pass) else {
        return false;
    };
    let Some(made) = written_before(rt, &shared, &mut part, writes) else {
        return false;
    };
    shared.join(&mut pass, part);
    ends(shared, pass, Wanted::Calls(made as usize))
}

#[test]
fn a_write_without_memory_leaves_the_object(rt: HostRuntime) {
    assert_so(&rt, keeps_what_is_made(&rt, 8));
}

// To write to a key of its own.
const WRITE_NTH: Asked = Asked::WriteNth(1);

const READS: Job = Job::Plan(Plan {
    carrier: 0,
    calls: 100,
    asked: READ,
    other: READ,
});

const ONE_SHIPMENT: Job = Job::Plan(Plan {
    carrier: 0,
    calls: 1,
    asked: SHIP,
    other: SHIP,
});

const ONE_WRITE: Job = Job::Plan(Plan {
    carrier: 1,
    calls: 1,
    asked: WRITE,
    other: WRITE,
});

const WRITES: Job = Job::Plan(Plan {
    carrier: 0,
    calls: 1000,
    asked: WRITE_NTH,
    other: SHIP,
});

// Whether a new shared store goes through these stages as it should, and the history at the end is the one that is wanted.
fn is_well<R: Threads + Wait + Sync + AllocGlobal>(
    rt: &R,
    stages: &[Stage],
    wanted: Wanted,
) -> bool {
    let Some((shared, mut pass)) = shared_store(rt.alloc()) else {
        return false;
    };
    for stage in stages {
        let (next, well) = go_through(rt, &shared, pass, stage);
        pass = next;
        if !well {
            return false;
        }
    }
    ends(shared, pass, wanted)
}

// Two threads read.
static BOTH_READ: [Stage; 1] = [Stage::Both(READS, READS)];

#[test]
fn the_calls_of_each_thread_stand_in_order(rt: HostRuntime) {
    assert_so(&rt, is_well(&rt, &BOTH_READ, Wanted::InOrder(2, 100)));
}

// One thread brings what another writes.
static BROUGHT: [Stage; 1] = [Stage::Both(ONE_SHIPMENT, ONE_WRITE)];

#[test]
fn a_call_waits_until_it_is_ready(rt: HostRuntime) {
    assert_so(&rt, is_well(&rt, &BROUGHT, Wanted::Two(2, 1)));
}

// A store is filled by writes, each to a key of its own, which owe a shipment each, which is then made.
static FILLED: [Stage; 1] = [Stage::Alone(Job::Rows(&[
    Row(WRITE_NTH, 2048, Told::Done),
    Row(WRITE, 1, Told::Full((2048, 2048, 2))),
    Row(SHIP, 2048, Told::Done),
]))];

#[test]
fn a_full_object_still_makes_what_it_owes(rt: HostRuntime) {
    assert_so(&rt, is_well(&rt, &FILLED, Wanted::Calls(4096)));
}

static REFUSED: [Stage; 1] = [Stage::Alone(Job::Steps(&[
    Step(
        OfWaitPort::Port(OfPort::Call(0, READ, u64::MAX)),
        Told::Spent(u64::MAX),
    ),
    Step(OfWaitPort::CallWait(READ, u64::MAX), Told::Spent(u64::MAX)),
    Step(OfWaitPort::Port(OfPort::Call(0, SHIP, 0)), Told::NotYet),
    Step(OfWaitPort::WriteFull, Told::LineageFull(b"k", 1)),
    Step(OfWaitPort::Port(OfPort::Call(0, SHIP, 0)), Told::Done),
]))];

#[test]
fn a_port_over_a_shared_store_refuses_with_the_cause(rt: HostRuntime) {
    assert_so(&rt, is_well(&rt, &REFUSED, Wanted::StillOut));
}

// A store that is filled, of which a call that may wait asks for more, and for what is owed.
static WAITED_FULL: [Stage; 2] = [
    Stage::Alone(Job::Rows(&[Row(WRITE_NTH, 2048, Told::Done)])),
    Stage::Alone(Job::Steps(&[
        Step(OfWaitPort::CallWait(WRITE, 0), Told::Full((2048, 2048, 2))),
        Step(OfWaitPort::CallWait(SHIP, 0), Told::Done),
    ])),
];

#[test]
fn a_call_that_may_wait_is_refused_where_there_is_no_room(rt: HostRuntime) {
    assert_so(&rt, is_well(&rt, &WAITED_FULL, Wanted::StillOut));
}

static HELD: [Stage; 1] = [Stage::Alone(Job::Steps(&[
    Step(
        OfWaitPort::Port(OfPort::Barrier(&[(b"k", 9)], 0)),
        Told::Unwritten(b"k", 9),
    ),
    Step(OfWaitPort::BarrierWait(9, 0), Told::Unwritten(b"k", 9)),
    Step(OfWaitPort::BarrierWait(9, u64::MAX), Told::Spent(u64::MAX)),
    Step(OfWaitPort::CallWait(WRITE, 0), Told::Done),
    Step(
        OfWaitPort::Port(OfPort::Barrier(&[(b"k", 1)], 0)),
        Told::NotYet,
    ),
    Step(
        OfWaitPort::Port(OfPort::DryRun(&[(b"k", 1)], 0)),
        Told::Ids(&[(b"k", 1)]),
    ),
    Step(OfWaitPort::Port(OfPort::Call(0, SHIP, 0)), Told::Done),
    Step(
        OfWaitPort::Port(OfPort::Barrier(&[(b"k", 1)], 0)),
        Told::Count(1),
    ),
]))];

#[test]
fn a_barrier_at_a_shared_store_waits_for_the_shipment(rt: HostRuntime) {
    assert_so(&rt, is_well(&rt, &HELD, Wanted::StillOut));
}

// A barrier that may wait, for what is there, at a store that has no room for its look.
static HELD_FULL: [Stage; 2] = [
    Stage::Alone(Job::Rows(&[
        Row(WRITE_NTH, 2048, Told::Done),
        Row(SHIP, 2048, Told::Done),
    ])),
    Stage::Alone(Job::Steps(&[Step(OfWaitPort::BarrierWait(1, 0), Told::Full((4096, 0, 1)))])),
];

#[test]
fn a_barrier_that_may_wait_is_refused_where_there_is_no_room(rt: HostRuntime) {
    assert_so(&rt, is_well(&rt, &HELD_FULL, Wanted::StillOut));
}

// Four threads write, and bring what they wrote.
static ALL_WRITE: [Stage; 1] = [Stage::All(WRITES)];

#[test]
fn four_threads_write_and_ship(rt: HostRuntime) {
    assert_so(&rt, is_well(&rt, &ALL_WRITE, Wanted::InOrder(4, 1000)));
}

// What was written is brought by one thread, while another waits for it at a barrier, whose look is then the third call.
static HELD_AT_LAST: [Stage; 3] = [
    Stage::Alone(Job::Rows(&[Row(WRITE, 1, Told::Done)])),
    Stage::Both(
        Job::Steps(&[Step(OfWaitPort::BarrierWait(1, 0), Told::Count(1))]),
        ONE_SHIPMENT,
    ),
    Stage::Alone(Job::Rows(&[Row(READ, 1, Told::MadeAt(4))])),
];

#[test]
fn a_barrier_waits_while_another_thread_ships(rt: HostRuntime) {
    assert_so(&rt, is_well(&rt, &HELD_AT_LAST, Wanted::StillOut));
}
