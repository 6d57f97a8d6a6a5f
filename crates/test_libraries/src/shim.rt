ghost use Rattle.std.specs.Prelude.{◌≡◌, ℕ, [], ◌∷◌, true};
ghost use Rattle.anti_kind.specs.Lones.{lone_start};
ghost use Rattle.anti_kind.specs.Machines.{StandsFor};
ghost use Rattle.anti_kind.specs.Objects.{store};
ghost use Rattle.anti_kind.specs.Store.{Store, is_replica};
ghost use Rattle.anti_shim.specs.Sights.{IsHere};

use crate::made::{Version, assert_right, lineage, name, versions};
use crate::ports::{
    SHIP, Shown, Told, WRITE, caller, calls, holds, is_count, is_fault, names, writes,
};
use crate::queue::queue;
use crate::steps::Asked as Call;
use crate::topic::topic;
use anti_blob::Blob;
use anti_ids::{Lineage, Name};
use anti_kind::{Lone, Machine, Port, Row, Rows};
use anti_kv::Kv;
use anti_queue::Queue;
use anti_shim::{
    BlobShim, BlobStore, Caller, KvShim, KvStore, QueueStore, ShimFault, StoreShim, TableShim,
    TableStore, TopicShim, TopicStore,
};
use anti_table::Table;
use anti_topic::Topic;
use std::alloc::Global;

// The kind of store whose shim reads a row.
enum By {
    Kv,
    Table,
    Blob,
    Topic,
}

// What is asked of a port over the store 0, of which the only replica is in region 0, or of who makes its calls.
enum Asked<'a> {
    // Whether the port has this object.
    Has(u32),
    // How many calls were made.
    History,
    // How many ids the lineage has.
    Lineage,
    // To go on with so many versions of another store as the lineage.
    Carry(u64),
    // To go on with these versions of this store as the lineage.
    Name(&'a [Version<'a>]),
    // To go on with this last stamp.
    Stamp(u64),
    // To read in this region.
    Region(u32),
    // To write a value to a key, with the lineage.
    Write(&'a [u8], &'a [u8]),
    // To write the value `v` to a key, as a caller that has made no call, with the empty lineage.
    Put(&'a [u8]),
    // To write the value `v` to the key `k`, with the empty lineage and by no shim.
    Over,
    // The same to the key of the number 0; the next time it is the next number.
    Fill,
    // To bring a part of a version to the region; the next time it is the next version.
    Ship(u64, u32),
    // To bring the first version of an object of another number.
    Elsewhere(u32),
    // To wait for the lineage.
    Wait,
    // To read a key, or to poll that of a cell.
    Read(By, &'a [u8]),
    // To scan the keys that begin with a prefix.
    Scan(&'a [u8]),
    // A barrier for these ids that begins now, of a caller that has made no call.
    Barrier(&'a [Version<'a>]),
    // A dry run of these ids, of a caller that has made no call.
    DryRun(&'a [Version<'a>]),
}

// What is asked, what is told, and how often.
struct Step<'a>(Asked<'a>, Told<'a>, u64);

// Who makes the calls, the lineage that it carries, and the region in which it reads.
#[derive(Drop)]
struct Session {
    who: Caller,
    lineage: Lineage,
    region: u32,
}

// A caller that has made no call, with the empty lineage.
fn fresh(alloc: Global) -> Session {
    Session {
        who: caller(0),
        lineage: Lineage::root(alloc),
        region: 0,
    }
}

/// Whether a row is such.
pub fn is_row(row: &Row, (version, value, ids): &Shown) -> bool {
    row.version == *version && row.value.bytes() == *value && row.lineage.len() == *ids
}

// Whether a read gave what is told.
fn is_read(row: &Result<Row, ShimFault>, told: &Told) -> bool {
    match (row, told) {
        (Ok(row), Told::Row(wanted)) => is_row(row, wanted),
        (Ok(_), _) => false,
        (Err(fault), _) => is_fault(fault, told),
    }
}

// Whether rows are those that are told, each in its place.
fn are_rows(rows: &Rows, told: &Told) -> bool {
    let Told::Rows(wanted) = told else {
        return false;
    };
    for (row, shown) in rows.as_slice().iter().zip(*wanted) {
        if !is_row(row, shown) {
            return false;
        }
    }
    rows.len() == wanted.len()
}

// Whether a scan gave what is told.
fn are_scanned(rows: &Result<Rows, ShimFault>, told: &Told) -> bool {
    match rows {
        Ok(rows) => are_rows(rows, told),
        Err(fault) => is_fault(fault, told),
    }
}

// Goes on with so many versions of the store 1 as the lineage.
fn carries(alloc: Global, session: &mut Session, count: u64) -> bool {
    let Ok(lineage) = versions(alloc, 1, b"k", count) else {
        return false;
    };
    session.lineage = lineage;
    true
}

// Goes on with these versions of the store 0 as the lineage.
fn names_own(alloc: Global, session: &mut Session, ids: &[Version]) -> bool {
    let Ok(lineage) = lineage(alloc, &[0], ids) else {
        return false;
    };
    session.lineage = lineage;
    true
}

// Whether a wait goes so.
fn waits<K, M: Machine>(
    alloc: Global,
    port: &mut Lone<M>,
    session: &mut Session,
    told: &Told,
) -> bool
    requires { IsHere (lone_start M.start port.old) 0 (0 ∷ []) }
    ensures { (o : ℕ) → lone_start M.start port.new o ≡ lone_start M.start port.old o }
{
    let store: StoreShim<K> = StoreShim::new(0, 0);
    match store.wait(alloc, port, &mut session.who, &session.lineage) {
        Ok(_) => matches!(told, Told::Done),
        Err(fault) => is_fault(&fault, told),
    }
}

// What the shim of a kind reads.
fn row_by<M: Machine>(
    port: &mut Lone<M>,
    session: &mut Session,
    by: &By,
    key: Name,
) -> Result<Row, ShimFault>
    requires { IsHere (lone_start M.start port.old) 0 (0 ∷ []) }
    ensures { (o : ℕ) → lone_start M.start port.new o ≡ lone_start M.start port.old o }
{
    let region = session.region;
    let who = &mut session.who;
    match by {
        By::Kv => KvShim::new(0, region).read(port, who, key),
        By::Table => TableShim::new(0, region).read(port, who, key),
        By::Blob => BlobShim::new(0, region).read(port, who, key),
        By::Topic => TopicShim::new(0, region).poll(port, who, key),
    }
}

// Whether a read goes so.
fn reads<M: Machine>(
    port: &mut Lone<M>,
    session: &mut Session,
    by: &By,
    key: &[u8],
    told: &Told,
) -> bool
    requires { IsHere (lone_start M.start port.old) 0 (0 ∷ []) }
    ensures { (o : ℕ) → lone_start M.start port.new o ≡ lone_start M.start port.old o }
{
    let Ok(key) = name(key) else {
        return false;
    };
    let row = row_by(port, session, by, key);
    is_read(&row, told)
}

// Whether a scan goes so.
fn scans<M: Machine>(port: &mut Lone<M>, session: &mut Session, prefix: &[u8], told: &Told) -> bool
    requires { IsHere (lone_start M.start port.old) 0 (0 ∷ []) }
    ensures { (o : ℕ) → lone_start M.start port.new o ≡ lone_start M.start port.old o }
{
    let Ok(prefix) = name(prefix) else {
        return false;
    };
    let rows = TableShim::new(0, session.region).scan(port, &mut session.who, prefix);
    are_scanned(&rows, told)
}

// Whether it goes so where the port is not called. `None` where it is.
fn goes_without<M: Machine>(
    alloc: Global,
    port: &Lone<M>,
    session: &mut Session,
    asked: &Asked,
    told: &Told,
) -> Option<bool> {
    match asked {
        Asked::Has(object) => Some(port.has(*object) == matches!(told, Told::Done)),
        Asked::History => Some(is_count(port.history().len(), told)),
        Asked::Lineage => Some(is_count(session.lineage.len() as usize, told)),
        Asked::Carry(count) => Some(carries(alloc, session, *count)),
        Asked::Name(ids) => Some(names_own(alloc, session, ids)),
        Asked::Stamp(clock) => {
            session.who.clock = *clock;
            Some(true)
        }
        Asked::Region(region) => {
            session.region = *region;
            Some(true)
        }
        _ => None,
    }
}

// Whether a read, a scan, a barrier or a dry run goes so.
fn shows<M: Machine>(
    alloc: Global,
    port: &mut Lone<M>,
    session: &mut Session,
    asked: &Asked,
    told: &Told,
) -> bool
    requires { IsHere (lone_start M.start port.old) 0 (0 ∷ []) }
    ensures { (o : ℕ) → lone_start M.start port.new o ≡ lone_start M.start port.old o }
{
    match asked {
        Asked::Read(by, key) => reads(port, session, by, key, told),
        Asked::Scan(prefix) => scans(port, session, prefix, told),
        Asked::Barrier(ids) => holds(alloc, port, &[0], ids, 0, told),
        Asked::DryRun(ids) => names(alloc, port, &[0], ids, 0, told),
        _ => false,
    }
}

// Whether a write of the value `v` goes so, of a caller that has made no call, with the empty lineage.
fn puts<K, M: Machine>(alloc: Global, port: &mut Lone<M>, key: &[u8], told: &Told) -> bool
    requires { IsHere (lone_start M.start port.old) 0 (0 ∷ []) }
    ensures { (o : ℕ) → lone_start M.start port.new o ≡ lone_start M.start port.old o }
{
    let mut none = Lineage::root(alloc);
    writes::<K, Lone<M>>(alloc, port, &mut caller(0), &mut none, key, b"v", told)
}

// Whether a step goes as it says, at its turn.
fn goes_once<K, M: Machine>(
    alloc: Global,
    port: &mut Lone<M>,
    session: &mut Session,
    step: &Step,
    turn: u64,
) -> bool
    requires { IsHere (lone_start M.start port.old) 0 (0 ∷ []) }
    ensures { (o : ℕ) → lone_start M.start port.new o ≡ lone_start M.start port.old o }
{
    let Step(asked, told, _) = step;
    if let Some(goes) = goes_without(alloc, port, session, asked, told) {
        return goes;
    }
    match asked {
        Asked::Write(key, text) => {
            let Session { who, lineage, .. } = session;
            writes::<K, Lone<M>>(alloc, port, who, lineage, key, text, told)
        }
        Asked::Put(key) => puts::<K, M>(alloc, port, key, told),
        Asked::Over => calls(alloc, port, 0, WRITE, 0, told),
        Asked::Fill => calls(alloc, port, 0, Call::WriteNth(turn), 0, told),
        Asked::Ship(version, part) => {
            let ship = Call::Ship(version.saturating_add(turn), *part);
            calls(alloc, port, 0, ship, 0, told)
        }
        Asked::Elsewhere(object) => calls(alloc, port, *object, SHIP, 0, told),
        Asked::Wait => waits::<K, M>(alloc, port, session, told),
        _ => shows(alloc, port, session, asked, told),
    }
}

// Whether a step goes as it says, each time.
fn goes<K, M: Machine>(
    alloc: Global,
    port: &mut Lone<M>,
    session: &mut Session,
    step: &Step,
) -> bool
    requires { IsHere (lone_start M.start port.old) 0 (0 ∷ []) }
    ensures { IsHere (lone_start M.start port.new) 0 (0 ∷ []) }
{
    for turn in 0..step.2 {
        if !goes_once::<K, M>(alloc, port, session, step, turn) {
            return false;
        }
    }
    true
}

// The first of these steps that does not go as it says, or for which memory runs out, at a port over a store that is at its
// start. `None` where each does.
fn wrong_step<K, M: Machine + Drop>(alloc: Global, start: M, steps: &[Step]) -> Option<usize>
    requires fresh { StandsFor (M.start start) (M.Stands start) [] }
    requires here { (s : Store) × (M.start start ≡ store s) × (s.number ≡ 0) × (is_replica s 0 ≡ true) }
{
    let Ok(mut port) = Lone::new(alloc, 0, start) else {
        return Some(0);
    };
    let mut session = fresh(alloc);
    for (place, step) in steps.iter().enumerate() {
        if !goes::<K, M>(alloc, &mut port, &mut session, step) {
            return Some(place);
        }
    }
    None
}

// The first wrong step at a port over a kv store.
fn wrong_step_of_kv(alloc: Global, steps: &[Step]) -> Option<usize> {
    let Ok(store) = Kv::new(alloc, 0, &[0]) else {
        return Some(0);
    };
    wrong_step::<KvStore, Kv>(alloc, store, steps)
}

// A store that is filled, where a write with no room finds none for itself and the shipment that it would owe; and behind all that it owed,
// where nothing else finds room. Before that an object that is not there, and a region without a replica.
static REFUSED: [Step; 18] = [
    Step(Asked::Has(0), Told::Done, 1),
    Step(Asked::Has(1), Told::Absent, 1),
    Step(Asked::Elsewhere(1), Told::NotYet, 1),
    Step(Asked::Region(1), Told::Done, 1),
    Step(Asked::Read(By::Kv, b"k"), Told::NotYet, 1),
    Step(Asked::Region(0), Told::Done, 1),
    Step(Asked::Stamp(u64::MAX), Told::Done, 1),
    Step(Asked::Read(By::Kv, b"k"), Told::Spent(u64::MAX), 1),
    Step(Asked::Ship(1, 1), Told::NotYet, 1),
    Step(Asked::Fill, Told::Done, 2048),
    Step(Asked::Put(b"k"), Told::Full((2048, 2048, 2)), 1),
    Step(Asked::Ship(1, 1), Told::Done, 2048),
    Step(Asked::Put(b"k"), Told::Full((4096, 0, 2)), 1),
    Step(Asked::Read(By::Kv, b"k"), Told::Full((4096, 0, 1)), 1),
    Step(Asked::Wait, Told::Full((4096, 0, 1)), 1),
    Step(Asked::Barrier(&[(b"k", 1)]), Told::Full((4096, 0, 1)), 1),
    Step(Asked::DryRun(&[(b"k", 1)]), Told::Full((4096, 0, 1)), 1),
    Step(Asked::History, Told::Count(4096), 1),
];

#[test]
fn a_port_refuses_with_the_cause(rt: HostRuntime) {
    assert_right(&rt, wrong_step_of_kv(rt.alloc(), &REFUSED));
}

// A read whose stamp is the last there is, and what comes behind it.
static LAST_STAMP: [Step; 9] = [
    Step(Asked::Put(b"k"), Told::Done, 1),
    Step(Asked::Ship(1, 1), Told::Done, 1),
    Step(Asked::Stamp(u64::MAX - 1), Told::Done, 1),
    Step(Asked::Read(By::Kv, b"k"), Told::Row((1, b"v", 0)), 1),
    Step(Asked::Put(b"k"), Told::Spent(u64::MAX), 1),
    Step(Asked::Wait, Told::Spent(u64::MAX), 1),
    Step(Asked::Barrier(&[(b"k", 1)]), Told::Spent(u64::MAX), 1),
    Step(Asked::DryRun(&[(b"k", 1)]), Told::Spent(u64::MAX), 1),
    Step(Asked::History, Told::Count(3), 1),
];

#[test]
fn no_call_is_made_behind_the_last_stamp(rt: HostRuntime) {
    assert_right(&rt, wrong_step_of_kv(rt.alloc(), &LAST_STAMP));
}

// A wait for an id that nobody wrote, and for one before and behind its shipment. The first makes its look, and so does the last.
static WAITED: [Step; 7] = [
    Step(Asked::Name(&[(b"k", 1)]), Told::Done, 1),
    Step(Asked::Wait, Told::Unwritten(b"k", 1), 1),
    Step(Asked::Put(b"k"), Told::Done, 1),
    Step(Asked::Wait, Told::NotYet, 1),
    Step(Asked::Ship(1, 1), Told::Done, 1),
    Step(Asked::Wait, Told::Done, 1),
    Step(Asked::History, Told::Count(4), 1),
];

#[test]
fn a_wait_names_what_nobody_wrote(rt: HostRuntime) {
    assert_right(&rt, wrong_step_of_kv(rt.alloc(), &WAITED));
}

// A barrier for an id that nobody wrote, and for one before and behind its shipment.
static HELD: [Step; 7] = [
    Step(Asked::Barrier(&[(b"k", 9)]), Told::Unwritten(b"k", 9), 1),
    Step(Asked::Put(b"k"), Told::Done, 1),
    Step(Asked::Barrier(&[(b"k", 1)]), Told::NotYet, 1),
    Step(Asked::DryRun(&[(b"k", 1)]), Told::Ids(&[(b"k", 1)]), 1),
    Step(Asked::Ship(1, 1), Told::Done, 1),
    Step(Asked::Barrier(&[(b"k", 1)]), Told::Count(1), 1),
    Step(Asked::DryRun(&[(b"k", 1)]), Told::Ids(&[]), 1),
];

#[test]
fn a_barrier_waits_for_the_shipment(rt: HostRuntime) {
    assert_right(&rt, wrong_step_of_kv(rt.alloc(), &HELD));
}

// A write with a full lineage, and one with the empty lineage to another key.
static CARRIED: [Step; 10] = [
    Step(Asked::Carry(512), Told::Done, 1),
    Step(Asked::Write(b"k", b"a"), Told::LineageFull(b"k", 1), 1),
    Step(Asked::Lineage, Told::Count(512), 1),
    Step(Asked::Carry(0), Told::Done, 1),
    Step(Asked::Write(b"j", b"b"), Told::Wrote(b"j", 2), 1),
    Step(Asked::Wait, Told::NotYet, 1),
    Step(Asked::Ship(2, 1), Told::Done, 1),
    Step(Asked::Wait, Told::Done, 1),
    Step(Asked::Read(By::Kv, b"j"), Told::Row((2, b"b", 0)), 1),
    Step(Asked::History, Told::Count(5), 1),
];

#[test]
fn a_write_carries_and_stores_the_lineage(rt: HostRuntime) {
    assert_right(&rt, wrong_step_of_kv(rt.alloc(), &CARRIED));
}

// A write over another, with the empty lineage, which brings what is kept beside it, and one that keeps 512 ids, behind which none comes.
static OVERWRITTEN: [Step; 14] = [
    Step(Asked::Put(b"j"), Told::Done, 2),
    Step(Asked::Write(b"j", b"c"), Told::Wrote(b"j", 3), 1),
    Step(Asked::Lineage, Told::Count(3), 1),
    Step(Asked::Ship(1, 1), Told::Done, 3),
    Step(Asked::Wait, Told::Done, 1),
    Step(Asked::Read(By::Kv, b"j"), Told::Row((3, b"c", 2)), 1),
    Step(Asked::Carry(511), Told::Done, 1),
    Step(Asked::Write(b"k", b"a"), Told::Wrote(b"k", 4), 1),
    Step(Asked::Lineage, Told::Count(512), 1),
    Step(Asked::Carry(0), Told::Done, 1),
    Step(Asked::Write(b"k", b"b"), Told::LineageFull(b"k", 5), 1),
    Step(Asked::Lineage, Told::Count(0), 1),
    Step(Asked::Put(b"k"), Told::Full((10, 2, 4097)), 1),
    Step(Asked::History, Told::Count(10), 1),
];

#[test]
fn a_write_brings_what_it_replaces(rt: HostRuntime) {
    assert_right(&rt, wrong_step_of_kv(rt.alloc(), &OVERWRITTEN));
}

// Writes over one another, each with the empty lineage, until the next one would keep too many ids.
static TOO_MANY: [Step; 4] = [
    Step(Asked::Over, Told::Count(0), 1),
    Step(Asked::Over, Told::Done, 511),
    Step(Asked::Over, Told::Count(512), 1),
    Step(Asked::Over, Told::Full((513, 513, 4097)), 1),
];

#[test]
fn a_port_refuses_what_would_keep_too_many_ids(rt: HostRuntime) {
    assert_right(&rt, wrong_step_of_kv(rt.alloc(), &TOO_MANY));
}

// The first wrong step at a port over a table.
fn wrong_step_of_table(alloc: Global, steps: &[Step]) -> Option<usize> {
    let Ok(store) = Table::new(alloc, 0, &[0]) else {
        return Some(0);
    };
    wrong_step::<TableStore, Table>(alloc, store, steps)
}

// Two rows with a prefix and one without it.
static SCANNED: [Step; 10] = [
    Step(Asked::Write(b"k2", b"k2"), Told::Wrote(b"k2", 1), 1),
    Step(Asked::Write(b"j1", b"j1"), Told::Wrote(b"j1", 2), 1),
    Step(Asked::Write(b"k1", b"k1"), Told::Wrote(b"k1", 3), 1),
    Step(Asked::Lineage, Told::Count(3), 1),
    Step(Asked::Scan(b"k"), Told::Rows(&[]), 1),
    Step(Asked::Wait, Told::NotYet, 1),
    Step(Asked::Ship(1, 1), Told::Done, 3),
    Step(Asked::Wait, Told::Done, 1),
    Step(
        Asked::Scan(b"k"),
        Told::Rows(&[(3, b"k1", 2), (1, b"k2", 0)]),
        1,
    ),
    Step(Asked::Read(By::Table, b"k"), Told::Row((0, b"", 0)), 1),
];

#[test]
fn a_scan_shows_the_rows_of_a_prefix(rt: HostRuntime) {
    assert_right(&rt, wrong_step_of_table(rt.alloc(), &SCANNED));
}

// A scan in a region without a replica, without a stamp, and without room for its rows or for the unit that it needs without any.
static SCAN_REFUSED: [Step; 9] = [
    Step(Asked::Region(1), Told::Done, 1),
    Step(Asked::Scan(b"k"), Told::NotYet, 1),
    Step(Asked::Region(0), Told::Done, 1),
    Step(Asked::Stamp(u64::MAX), Told::Done, 1),
    Step(Asked::Scan(b"k"), Told::Spent(u64::MAX), 1),
    Step(Asked::Fill, Told::Done, 2048),
    Step(Asked::Ship(1, 1), Told::Done, 2048),
    Step(Asked::Scan(b"k"), Told::Full((4096, 0, 2048)), 1),
    Step(Asked::Scan(b"j"), Told::Full((4096, 0, 1)), 1),
];

#[test]
fn a_scan_is_refused_with_the_cause(rt: HostRuntime) {
    assert_right(&rt, wrong_step_of_table(rt.alloc(), &SCAN_REFUSED));
}

// The first wrong step at a port over a store of blobs.
fn wrong_step_of_blobs(alloc: Global, steps: &[Step]) -> Option<usize> {
    let Ok(store) = Blob::new(alloc, 0, &[0]) else {
        return Some(0);
    };
    wrong_step::<BlobStore, Blob>(alloc, store, steps)
}

// A value of two parts.
const LONG: &[u8] = &[b'v'; 65];

// It is shipped, the second part first.
static IN_PARTS: [Step; 7] = [
    Step(Asked::Write(b"k", LONG), Told::Wrote(b"k", 1), 1),
    Step(Asked::Ship(1, 2), Told::Done, 1),
    Step(Asked::Read(By::Blob, b"k"), Told::Row((0, b"", 0)), 1),
    Step(Asked::Wait, Told::NotYet, 1),
    Step(Asked::Ship(1, 1), Told::Done, 1),
    Step(Asked::Wait, Told::Done, 1),
    Step(Asked::Read(By::Blob, b"k"), Told::Row((1, LONG, 0)), 1),
];

#[test]
fn a_blob_is_read_once_all_its_parts_are_there(rt: HostRuntime) {
    assert_right(&rt, wrong_step_of_blobs(rt.alloc(), &IN_PARTS));
}

// The first wrong step at a port over a queue with two subscriptions.
fn wrong_step_of_queue(alloc: Global, steps: &[Step]) -> Option<usize> {
    let Ok(store) = queue(alloc) else {
        return Some(0);
    };
    wrong_step::<QueueStore, Queue>(alloc, store, steps)
}

// A message, whose id has the key of its channel and its number there.
static SENT: [Step; 4] = [
    Step(Asked::Write(b"n", b"a"), Told::Wrote(b"n#1", 1), 1),
    Step(Asked::Wait, Told::NotYet, 1),
    Step(Asked::Ship(1, 1), Told::Done, 1),
    Step(Asked::Wait, Told::Done, 1),
];

#[test]
fn a_message_is_named_by_its_channel(rt: HostRuntime) {
    assert_right(&rt, wrong_step_of_queue(rt.alloc(), &SENT));
}

// The first wrong step at a port over a topic with two subscriptions.
fn wrong_step_of_topic(alloc: Global, steps: &[Step]) -> Option<usize> {
    let Ok(store) = topic(alloc) else {
        return Some(0);
    };
    wrong_step::<TopicStore, Topic>(alloc, store, steps)
}

// A cell, before and behind its shipment.
static POLLED: [Step; 6] = [
    Step(Asked::Write(b"n", b"a"), Told::Wrote(b"n#1", 1), 1),
    Step(Asked::Read(By::Topic, b"n#1"), Told::Row((0, b"", 0)), 1),
    Step(Asked::Wait, Told::NotYet, 1),
    Step(Asked::Ship(1, 1), Told::Done, 1),
    Step(Asked::Wait, Told::Done, 1),
    Step(Asked::Read(By::Topic, b"n#1"), Told::Row((1, b"a", 0)), 1),
];

#[test]
fn a_cell_is_polled_by_its_key(rt: HostRuntime) {
    assert_right(&rt, wrong_step_of_topic(rt.alloc(), &POLLED));
}

// A write to a channel that is not plain, and polls as the scans above.
static POLL_REFUSED: [Step; 9] = [
    Step(Asked::Write(b"n#1", b"a"), Told::NotYet, 1),
    Step(Asked::Region(1), Told::Done, 1),
    Step(Asked::Read(By::Topic, b"n#1"), Told::NotYet, 1),
    Step(Asked::Region(0), Told::Done, 1),
    Step(Asked::Stamp(u64::MAX), Told::Done, 1),
    Step(Asked::Read(By::Topic, b"n#1"), Told::Spent(u64::MAX), 1),
    Step(Asked::Put(b"n"), Told::Done, 2048),
    Step(Asked::Ship(1, 1), Told::Done, 2048),
    Step(Asked::Read(By::Topic, b"n#1"), Told::Full((4096, 0, 1)), 1),
];

#[test]
fn a_poll_and_a_write_are_refused_with_the_cause(rt: HostRuntime) {
    assert_right(&rt, wrong_step_of_topic(rt.alloc(), &POLL_REFUSED));
}
