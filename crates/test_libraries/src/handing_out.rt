// What shims of queues and topics hand out, and what a row that was handed out brings to a lineage.
ghost use Rattle.std.specs.Prelude.{◌≡◌, ℕ, [], ◌∷◌, true};
ghost use Rattle.anti_kind.specs.Machines.{StandsFor};
ghost use Rattle.anti_kind.specs.Objects.{store};
ghost use Rattle.anti_kind.specs.Store.{Store, is_replica};
ghost use Rattle.anti_shim.specs.Sights.{IsHere};

use crate::made::{assert_right, id, name, value, versions};
use crate::ports::{Shown, Told as Plain, caller, calls, is_fault, writes};
use crate::queue::queue;
use crate::shim::is_row;
use crate::steps::Asked as Call;
use crate::topic::topic;
use anti_ids::{Lineage, LineageRefused};
use anti_kind::{Handle, Lone, Machine, Port, Row};
use anti_shim::{Caller, QueueShim, QueueStore, ShimFault, TopicShim, transfer_row};
use std::alloc::Global;

// What is asked at a port over the store 0, of which the only replica is in region 0.
enum Asked<'a> {
    // To go on with this last stamp.
    Stamp(u64),
    // To write a value to the channel `n`, with so many versions of another store as the lineage.
    Write(&'a [u8], u64),
    // To bring a version; the next time it is the next.
    Ship(u64),
    // To pull for a subscription, by the shim of a queue and by that of a topic.
    Pull(u32),
    PullCell(u32),
    // To pull a version once more for a subscription.
    Repull(u32, u64),
    // To say that a version is done.
    Ack(u64),
    // To give a version back.
    Nack(u64),
}

// What is told.
enum Told<'a> {
    // The row of a key.
    Row(&'a [u8], Shown<'a>),
    // What is told without a row.
    Plain(Plain<'a>),
}

// What is asked, what is told, and how often.
struct Step<'a>(Asked<'a>, Told<'a>, u64);

// Whether a row or a fault is what is told.
fn is_handed_out(row: &Result<Handle<Row>, ShimFault>, told: &Told) -> bool {
    match (row, told) {
        (Ok(row), Told::Row(key, shown)) => {
            let row = row.get();
            row.key.bytes() == *key && is_row(row, shown)
        }
        (Err(fault), Told::Plain(told)) => is_fault(fault, told),
        _ => false,
    }
}

// Whether what was done, or a fault, is what is told.
fn is_done(done: &Result<(), ShimFault>, told: &Plain) -> bool {
    match done {
        Ok(()) => matches!(told, Plain::Done),
        Err(fault) => is_fault(fault, told),
    }
}

// Whether a row is handed out so.
fn hands_out<P: Port>(port: &mut P, who: &mut Caller, asked: &Asked, told: &Told) -> bool
    requires { IsHere (P.start port.old) 0 (0 ∷ []) }
    ensures { (o : ℕ) → P.start port.new o ≡ P.start port.old o }
{
    let row = match asked {
        Asked::Pull(sub) => QueueShim::new(0, 0).pull(port, who, *sub),
        Asked::PullCell(sub) => TopicShim::new(0, 0).pull(port, who, *sub),
        Asked::Repull(sub, version) => TopicShim::new(0, 0).repull(port, who, *sub, *version),
        _ => return false,
    };
    is_handed_out(&row, told)
}

// Whether a message is written so.
fn sends<P: Port>(
    alloc: Global,
    port: &mut P,
    who: &mut Caller,
    text: &[u8],
    ids: u64,
    told: &Plain,
) -> bool
    requires { IsHere (P.start port.old) 0 (0 ∷ []) }
    ensures { (o : ℕ) → P.start port.new o ≡ P.start port.old o }
{
    let Ok(mut lineage) = versions(alloc, 1, b"k", ids) else {
        return false;
    };
    writes::<QueueStore, P>(alloc, port, who, &mut lineage, b"n", text, told)
}

// Whether what is told without a row goes so, at its turn.
fn goes_plainly<P: Port>(
    alloc: Global,
    port: &mut P,
    who: &mut Caller,
    asked: &Asked,
    told: &Plain,
    turn: u64,
) -> bool
    requires { IsHere (P.start port.old) 0 (0 ∷ []) }
    ensures { (o : ℕ) → P.start port.new o ≡ P.start port.old o }
{
    match asked {
        Asked::Stamp(clock) => {
            who.clock = *clock;
            true
        }
        Asked::Write(text, ids) => sends(alloc, port, who, text, *ids, told),
        Asked::Ship(version) => {
            let ship = Call::Ship(version.saturating_add(turn), 1);
            calls(alloc, port, 0, ship, 0, told)
        }
        Asked::Ack(version) => is_done(&QueueShim::new(0, 0).ack(port, who, *version), told),
        Asked::Nack(version) => is_done(&QueueShim::new(0, 0).nack(port, who, *version), told),
        _ => false,
    }
}

// Whether a step goes as it says, at its turn.
fn goes_once<P: Port>(alloc: Global, port: &mut P, who: &mut Caller, step: &Step, turn: u64) -> bool
    requires { IsHere (P.start port.old) 0 (0 ∷ []) }
    ensures { (o : ℕ) → P.start port.new o ≡ P.start port.old o }
{
    let Step(asked, told, _) = step;
    match (asked, told) {
        (Asked::Pull(_), _) => hands_out(port, who, asked, told),
        (Asked::PullCell(_), _) => hands_out(port, who, asked, told),
        (Asked::Repull(_, _), _) => hands_out(port, who, asked, told),
        (_, Told::Plain(told)) => goes_plainly(alloc, port, who, asked, told, turn),
        _ => false,
    }
}

// Whether a step goes as it says, each time.
fn goes<P: Port>(alloc: Global, port: &mut P, who: &mut Caller, step: &Step) -> bool
    requires { IsHere (P.start port.old) 0 (0 ∷ []) }
    ensures { IsHere (P.start port.new) 0 (0 ∷ []) }
{
    for turn in 0..step.2 {
        if !goes_once(alloc, port, who, step, turn) {
            return false;
        }
    }
    true
}

// The first of these steps that does not go as it says, or for which memory runs out, at a port over a store that is at its start. `None`
// where each does.
fn wrong_step<M: Machine + Drop>(alloc: Global, start: M, steps: &[Step]) -> Option<usize>
    requires fresh { StandsFor (M.start start) (M.Stands start) [] }
    requires here { (s : Store) × (M.start start ≡ store s) × (s.number ≡ 0) × (is_replica s 0 ≡ true) }
{
    let Ok(mut port) = Lone::new(alloc, 0, start) else {
        return Some(0);
    };
    let mut who = caller(0);
    for (place, step) in steps.iter().enumerate() {
        if !goes(alloc, &mut port, &mut who, step) {
            return Some(place);
        }
    }
    None
}

// The first wrong step at a port over a queue with two subscriptions.
fn wrong_step_of_queue(alloc: Global, steps: &[Step]) -> Option<usize> {
    match queue(alloc) {
        Ok(store) => wrong_step(alloc, store, steps),
        Err(_) => Some(0),
    }
}

// The first wrong step at a port over a topic with two subscriptions.
fn wrong_step_of_topic(alloc: Global, steps: &[Step]) -> Option<usize> {
    match topic(alloc) {
        Ok(store) => wrong_step(alloc, store, steps),
        Err(_) => Some(0),
    }
}

// That it was done.
const DONE: Told = Told::Plain(Plain::Done);

// That it is not ready.
const NOT_YET: Told = Told::Plain(Plain::NotYet);

// That no stamp is left.
const SPENT: Told = Told::Plain(Plain::Spent(u64::MAX));

// Two messages: the first is given back, comes again and is done, and the second is done at once.
static MESSAGES: [Step; 19] = [
    Step(Asked::Pull(0), NOT_YET, 1),
    Step(Asked::Write(b"a", 3), DONE, 1),
    Step(Asked::Write(b"b", 0), DONE, 1),
    Step(Asked::Pull(0), NOT_YET, 1),
    Step(Asked::Ship(1), DONE, 2),
    Step(Asked::Ack(1), NOT_YET, 1),
    Step(Asked::Nack(1), NOT_YET, 1),
    Step(Asked::Pull(0), Told::Row(b"n#1", (1, b"a", 3)), 1),
    Step(Asked::Pull(1), Told::Row(b"n#2", (2, b"b", 0)), 1),
    Step(Asked::Pull(0), NOT_YET, 1),
    Step(Asked::Pull(2), NOT_YET, 1),
    Step(Asked::Nack(1), DONE, 1),
    Step(Asked::Nack(1), NOT_YET, 1),
    Step(Asked::Pull(1), Told::Row(b"n#1", (1, b"a", 3)), 1),
    Step(Asked::Ack(1), DONE, 1),
    Step(Asked::Ack(1), NOT_YET, 1),
    Step(Asked::Ack(2), DONE, 1),
    Step(Asked::Nack(2), NOT_YET, 1),
    Step(Asked::Pull(0), NOT_YET, 1),
];

#[test]
fn a_queue_hands_out_until_it_is_told_that_it_is_done(rt: HostRuntime) {
    assert_right(&rt, wrong_step_of_queue(rt.alloc(), &MESSAGES));
}

// A message that is out while no stamp is left, and then while the queue is full, where it can be done all the same.
static MESSAGES_REFUSED: [Step; 13] = [
    Step(Asked::Write(b"a", 0), DONE, 2),
    Step(Asked::Ship(1), DONE, 2),
    Step(Asked::Pull(0), Told::Row(b"n#1", (1, b"a", 0)), 1),
    Step(Asked::Stamp(u64::MAX), DONE, 1),
    Step(Asked::Pull(0), SPENT, 1),
    Step(Asked::Ack(1), SPENT, 1),
    Step(Asked::Nack(1), SPENT, 1),
    Step(Asked::Stamp(0), DONE, 1),
    Step(Asked::Write(b"a", 0), DONE, 2045),
    Step(Asked::Pull(0), Told::Plain(Plain::Full((2050, 2046, 2))), 1),
    Step(Asked::Ship(3), DONE, 2045),
    Step(Asked::Nack(1), DONE, 1),
    Step(Asked::Pull(0), Told::Plain(Plain::Full((4096, 0, 2))), 1),
];

#[test]
fn a_queue_refuses_with_the_cause(rt: HostRuntime) {
    assert_right(&rt, wrong_step_of_queue(rt.alloc(), &MESSAGES_REFUSED));
}

// Two cells, which a subscription pulls in their order, and once more as it likes.
static CELLS: [Step; 14] = [
    Step(Asked::PullCell(0), NOT_YET, 1),
    Step(Asked::Write(b"a", 3), DONE, 1),
    Step(Asked::Write(b"b", 0), DONE, 1),
    Step(Asked::Ship(1), DONE, 2),
    Step(Asked::Repull(0, 1), NOT_YET, 1),
    Step(Asked::PullCell(0), Told::Row(b"n#1", (1, b"a", 3)), 1),
    Step(Asked::Repull(0, 2), NOT_YET, 1),
    Step(Asked::PullCell(0), Told::Row(b"n#2", (2, b"b", 0)), 1),
    Step(Asked::PullCell(0), NOT_YET, 1),
    Step(Asked::PullCell(2), NOT_YET, 1),
    Step(Asked::Repull(0, 1), Told::Row(b"n#1", (1, b"a", 3)), 1),
    Step(Asked::Repull(0, 2), Told::Row(b"n#2", (2, b"b", 0)), 1),
    Step(Asked::Repull(1, 1), NOT_YET, 1),
    Step(Asked::PullCell(1), Told::Row(b"n#1", (1, b"a", 3)), 1),
];

#[test]
fn a_topic_hands_out_each_cell_once_and_again(rt: HostRuntime) {
    assert_right(&rt, wrong_step_of_topic(rt.alloc(), &CELLS));
}

// That there is no room for one more.
const NO_ROOM: Told = Told::Plain(Plain::Full((4096, 0, 1)));

// A cell that was pulled and one that was not, without a stamp, and then without room.
static CELLS_REFUSED: [Step; 12] = [
    Step(Asked::Write(b"a", 0), DONE, 2),
    Step(Asked::Ship(1), DONE, 2),
    Step(Asked::PullCell(0), Told::Row(b"n#1", (1, b"a", 0)), 1),
    Step(Asked::Stamp(u64::MAX), DONE, 1),
    Step(Asked::PullCell(0), SPENT, 1),
    Step(Asked::Repull(0, 1), SPENT, 1),
    Step(Asked::Stamp(0), DONE, 1),
    Step(Asked::Write(b"a", 0), DONE, 2045),
    Step(Asked::Ship(3), DONE, 2045),
    Step(Asked::Repull(0, 1), Told::Row(b"n#1", (1, b"a", 0)), 1),
    Step(Asked::PullCell(0), NO_ROOM, 1),
    Step(Asked::Repull(0, 1), NO_ROOM, 1),
];

#[test]
fn a_topic_refuses_with_the_cause(rt: HostRuntime) {
    assert_right(&rt, wrong_step_of_topic(rt.alloc(), &CELLS_REFUSED));
}

// A row of the key `k` of the store 0: its version, and how many versions of the key of the store 1 are kept beside it. The lineage that
// takes it over, as so many versions of the key of a store. How many ids that then has: none are told where it is refused as too many.
struct Taken(u64, u64, (u32, u64), Option<u32>);

// Whether a lineage has the first versions of the key `k` of a store.
fn has_versions(lineage: &Lineage, store: u32, count: u64) -> bool {
    for version in 1..=count {
        let Ok(id) = id(store, b"k", version) else {
            return false;
        };
        if !lineage.contains(&id) {
            return false;
        }
    }
    true
}

// Such a row. `None` where memory runs out.
fn row_of(alloc: Global, version: u64, beside: u64) -> Option<Row> {
    let Ok(key) = name(b"k") else {
        return None;
    };
    let Ok(value) = value(alloc, b"v") else {
        return None;
    };
    match versions(alloc, 1, b"k", beside) {
        Ok(lineage) => Some(Row {
            key,
            version,
            value,
            lineage,
        }),
        Err(_) => None,
    }
}

// Whether a lineage has the id of such a row, where it is that of a write, and what is kept beside it.
fn has_row(lineage: &Lineage, version: u64, beside: u64) -> bool {
    let Ok(own) = id(0, b"k", version) else {
        return false;
    };
    (version == 0 || lineage.contains(&own)) && has_versions(lineage, 1, beside)
}

// Whether a row is taken over, or refused, as it says. What was carried is carried still.
fn is_taken(alloc: Global, Taken(version, beside, (carrier, carried), count): &Taken) -> bool {
    let Some(row) = row_of(alloc, *version, *beside) else {
        return false;
    };
    let Ok(mut lineage) = versions(alloc, *carrier, b"k", *carried) else {
        return false;
    };
    let is_told = match (transfer_row(&mut lineage, 0, &row), count) {
        (Ok(()), Some(count)) => { lineage.len() == *count && has_row(&lineage, *version, *beside) }
        (Err(LineageRefused::Full), None) => u64::from(lineage.len()) == *carried,
        _ => false,
    };
    is_told && has_versions(&lineage, *carrier, *carried)
}

// The first of these that is not taken over as it says. `None` where each is.
fn wrong_taken(alloc: Global, rows: &[Taken]) -> Option<usize> {
    for (place, row) in rows.iter().enumerate() {
        if !is_taken(alloc, row) {
            return Some(place);
        }
    }
    None
}

// Rows that no write made and such as one made, of which the lineage may have the id already.
static TAKEN: [Taken; 15] = [
    Taken(0, 0, (2, 0), Some(0)),
    Taken(1, 0, (2, 0), Some(1)),
    Taken(0, 3, (2, 0), Some(3)),
    Taken(2, 3, (2, 5), Some(9)),
    Taken(2, 3, (1, 5), Some(6)),
    Taken(2, 3, (0, 5), Some(8)),
    Taken(1, 511, (2, 0), Some(512)),
    Taken(1, 512, (2, 0), None),
    Taken(0, 512, (2, 0), Some(512)),
    Taken(0, 512, (2, 1), None),
    Taken(1, 0, (2, 512), None),
    Taken(1, 0, (0, 512), Some(512)),
    Taken(1, 1, (0, 512), None),
    Taken(1, 256, (2, 255), Some(512)),
    Taken(1, 256, (2, 256), None),
];

#[test]
fn a_row_brings_its_id_and_what_is_kept_beside_it(rt: HostRuntime) {
    assert_right(&rt, wrong_taken(rt.alloc(), &TAKEN));
}
