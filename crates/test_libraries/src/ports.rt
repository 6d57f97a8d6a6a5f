// What ports over stores are asked, each with a replica in region 0, and what they answer.

ghost use Rattle.std.specs.Prelude.{◌≡◌, ℕ, [], ◌∷◌};
ghost use Rattle.anti_shim.specs.Sights.{IsHere};

use crate::made::{Version, id, lineage, name, value};
use crate::steps::{Asked, call_of};
use anti_ids::{Lineage, WriteId};
use anti_kind::{Actor, Answer, Port, Refusal, Reply};
use anti_shim::{Barrier, BarrierAnswer, Caller, ShimFault, StoreShim, barrier, dry_run};
use std::alloc::Global;

/// To read the key `k`.
pub const READ: Asked = Asked::Read(b"k");

/// To write the value `v` to it, with the empty lineage.
pub const WRITE: Asked = Asked::Write(b"k", b"v", &[]);

/// To bring the first version.
pub const SHIP: Asked = Asked::Ship(1, 1);

/// Of a row its version, its value, and how many ids are beside it.
pub type Shown<'a> = (u64, &'a [u8], u32);

/// What a port is asked.
pub enum OfPort<'a> {
    /// To make a call on an object, for an actor with this last stamp.
    Call(u32, Asked<'a>, u64),
    /// A barrier for these versions of each store, which begins now, of a caller with this last stamp.
    Barrier(&'a [Version<'a>], u64),
    /// A dry run of these versions, of such a caller.
    DryRun(&'a [Version<'a>], u64),
}

/// What is told.
pub enum Told<'a> {
    /// That it was done, or that there is such an object.
    Done,
    /// That the call was made, and the place of its entry.
    MadeAt(u32),
    /// That there is no such object.
    Absent,
    /// How many there are; of a barrier, the sights; of a dry run, the ids that are missing; of a write, those that are kept beside it.
    Count(usize),
    /// The id of what was written, which the lineage then has.
    Wrote(&'a [u8], u64),
    /// A row.
    Row(Shown<'a>),
    /// Rows, each in its place.
    Rows(&'a [Shown<'a>]),
    /// The ids that are missing.
    Ids(&'a [Version<'a>]),
    /// That it is not ready.
    NotYet,
    /// That the store holds and owes so many units, and so many are needed.
    Full((u32, u32, u32)),
    /// That there is no stamp behind this one.
    Spent(u64),
    /// That nobody wrote this.
    Unwritten(&'a [u8], u64),
    /// That this was written, and the lineage is full.
    LineageFull(&'a [u8], u64),
}

/// A caller with this last stamp.
pub fn caller(clock: u64) -> Caller {
    Caller {
        actor: Actor::Carrier(0),
        span: 0,
        clock,
    }
}

// Whether an id is this version of a key of the store 0.
fn is_id(id: &WriteId, key: &[u8], version: u64) -> bool {
    id.store == 0 && id.key.bytes() == key && id.version == version
}

/// Whether a count is what is told.
pub fn is_count(count: usize, told: &Told) -> bool {
    matches!(told, Told::Count(wanted) if *wanted == count)
}

/// Whether a refusal is what is told.
pub fn is_refused(refusal: &Refusal, told: &Told) -> bool {
    match (refusal, told) {
        (Refusal::NotYet, Told::NotYet) => true,
        (Refusal::Full { held, owed, need }, Told::Full(full)) => (*held, *owed, *need) == *full,
        (Refusal::Spent { clock }, Told::Spent(last)) => clock == last,
        _ => false,
    }
}

/// Whether a fault is what is told.
pub fn is_fault(fault: &ShimFault, told: &Told) -> bool {
    match (fault, told) {
        (ShimFault::Refused(refusal), _) => is_refused(refusal, told),
        (ShimFault::Unwritten(id), Told::Unwritten(key, version)) => is_id(id, key, *version),
        (ShimFault::LineageFull(id), Told::LineageFull(key, version)) => is_id(id, key, *version),
        _ => false,
    }
}

/// Whether a call was answered as is told.
pub fn is_answered(answer: &Answer, told: &Told) -> bool {
    match (answer, told) {
        (Answer::Made { .. }, Told::Done) => true,
        (Answer::Made { place, .. }, Told::MadeAt(wanted)) => place == wanted,
        (
            Answer::Made {
                reply: Reply::Written {
                    over: Some(kept),
                    ..
                },
                ..
            },
            _,
        ) => is_count(kept.get().len() as usize, told),
        (
            Answer::Made {
                reply: Reply::Written { .. },
                ..
            },
            _,
        ) => is_count(0, told),
        (Answer::Refused(refusal), _) => is_refused(refusal, told),
        _ => false,
    }
}

/// Whether a barrier answered what is told.
pub fn is_held(answer: &BarrierAnswer, told: &Told) -> bool {
    match (answer, told) {
        (BarrierAnswer::Clear(sights), _) => is_count(sights.len(), told),
        (BarrierAnswer::Refused(refusal), _) => is_refused(refusal, told),
        (BarrierAnswer::Unwritten(id), Told::Unwritten(key, version)) => is_id(id, key, *version),
        _ => false,
    }
}

// Whether a write, which left this lineage, gave what is told.
fn is_written(wrote: &Result<WriteId, ShimFault>, lineage: &Lineage, told: &Told) -> bool {
    match (wrote, told) {
        (Ok(_), Told::Done) => true,
        (Ok(id), Told::Wrote(key, version)) => is_id(id, key, *version) && lineage.contains(id),
        (Ok(_), _) => false,
        (Err(fault), _) => is_fault(fault, told),
    }
}

// Whether just these ids of the store 0 are missing.
fn are_missing(missing: &Lineage, wanted: &[Version]) -> bool {
    for (key, version) in wanted {
        let Ok(id) = id(0, key, *version) else {
            return false;
        };
        if !missing.contains(&id) {
            return false;
        }
    }
    missing.len() as usize == wanted.len()
}

// Whether a dry run gave what is told.
fn are_named(missing: &Result<Lineage, ShimFault>, told: &Told) -> bool {
    match (missing, told) {
        (Ok(missing), Told::Ids(wanted)) => are_missing(missing, wanted),
        (Ok(missing), _) => is_count(missing.len() as usize, told),
        (Err(fault), _) => is_fault(fault, told),
    }
}

/// Whether a call goes so at the object of this number.
pub fn calls<P: Port>(
    alloc: Global,
    port: &mut P,
    object: u32,
    asked: Asked,
    clock: u64,
    told: &Told,
) -> bool
    ensures { (o : ℕ) → P.start port.new o ≡ P.start port.old o }
{
    let Some(call) = call_of(alloc, 0, asked) else {
        return false;
    };
    is_answered(&port.call(object, Actor::Carrier(0), 0, clock, call), told)
}

/// Whether a write of a value to a key goes so at the store 0, with this lineage.
pub fn writes<K, P: Port>(
    alloc: Global,
    port: &mut P,
    who: &mut Caller,
    lineage: &mut Lineage,
    key: &[u8],
    text: &[u8],
    told: &Told,
) -> bool
    requires { IsHere (P.start port.old) 0 (0 ∷ []) }
    ensures { (o : ℕ) → P.start port.new o ≡ P.start port.old o }
{
    let Ok(key) = name(key) else {
        return false;
    };
    let Ok(value) = value(alloc, text) else {
        return false;
    };
    let store: StoreShim<K> = StoreShim::new(0, 0);
    let wrote = store.write(alloc, port, who, key, value, lineage);
    is_written(&wrote, lineage, told)
}

/// Whether a barrier goes so over the stores of these numbers.
pub fn holds<P: Port>(
    alloc: Global,
    port: &mut P,
    here: &[u32],
    ids: &[Version],
    clock: u64,
    told: &Told,
) -> bool
    requires { IsHere (P.start port.old) 0 here.now }
    ensures { (o : ℕ) → P.start port.new o ≡ P.start port.old o }
{
    let Ok(lineage) = lineage(alloc, here, ids) else {
        return false;
    };
    let mut cursor = Barrier::begin(alloc);
    let answer = barrier(
        alloc,
        port,
        &mut caller(clock),
        0,
        here,
        &lineage,
        &mut cursor,
    );
    is_held(&answer, told)
}

/// Whether a dry run goes so over the stores of these numbers.
pub fn names<P: Port>(
    alloc: Global,
    port: &mut P,
    here: &[u32],
    ids: &[Version],
    clock: u64,
    told: &Told,
) -> bool
    requires { IsHere (P.start port.old) 0 here.now }
    ensures { (o : ℕ) → P.start port.new o ≡ P.start port.old o }
{
    let Ok(lineage) = lineage(alloc, here, ids) else {
        return false;
    };
    let missing = dry_run(alloc, port, &mut caller(clock), 0, here, &lineage);
    are_named(&missing, told)
}

/// Whether a port over the stores of these numbers answers so.
pub fn answers<P: Port>(
    alloc: Global,
    port: &mut P,
    here: &[u32],
    asked: &OfPort,
    told: &Told,
) -> bool
    requires { IsHere (P.start port.old) 0 here.now }
    ensures { (o : ℕ) → P.start port.new o ≡ P.start port.old o }
{
    match asked {
        OfPort::Call(object, asked, clock) => calls(alloc, port, *object, *asked, *clock, told),
        OfPort::Barrier(ids, clock) => holds(alloc, port, here, ids, *clock, told),
        OfPort::DryRun(ids, clock) => names(alloc, port, here, ids, *clock, told),
    }
}
