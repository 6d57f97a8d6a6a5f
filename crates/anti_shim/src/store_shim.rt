ghost use Rattle.std.specs.Prelude.{◌≡◌, ◌+◌, ◌≤◌, ℕ, List, [], ◌∷◌, length, is_some, unwrap_or, true, IfOk};
ghost use Rattle.anti_ids.specs.Ids.{ids_of, with_ids};
ghost use Rattle.anti_ids.specs.Invariants.{IsAscending};
ghost use Rattle.anti_ids.specs.declared.limits.TheConstants.{MOST_IDS};
ghost use Rattle.anti_shim.specs.Steps.{between};
ghost use Rattle.anti_shim.specs.Shims.{Appends, IsShown, Polls, Reads, Scans, Sees, Writes};
ghost use Rattle.anti_shim.specs.inner.Writes.{Puts};

use crate::asks::Once;
use crate::caller::Caller;
use crate::fault::ShimFault;
use crate::kinds::{ReadByKey, TableStore, TopicStore};
use crate::sight::{Sight, see};
use anti_ids::{Copies, Lineage, MOST_IDS, Name, NoMemory, Roomy, RoomyFull, Value, WriteId};
use anti_kind::{Call, Handle, Port, Reply, Row, Rows};
use std::alloc::Global;
use std::marker::PhantomData;

/// A store of the kind `K`, as a caller in a region uses it: what all kinds have, and the reads of
/// the kind.
#[derive(Clone, Copy)]
pub struct StoreShim<K> {
    pub store: u32,
    pub region: u32,
    kind: PhantomData<K>,
}

// A write that was made: its id, and what is kept beside it, where that is not what it handed in.
#[derive(Drop)]
struct MadeWrite {
    id: WriteId,
    over: Option<Handle<Lineage>>,
}

impl<K> StoreShim<K> {
    /// The store of this number, as callers in this region use it.
    pub fn new(store: u32, region: u32) -> StoreShim<K>
        ensures store { result.store ≡ store }
        ensures region { result.region ≡ region }
    {
        StoreShim {
            store,
            region,
            kind: PhantomData,
        }
    }

    /// Makes one write, which hands in the lineage as it is, and appends what is kept beside the
    /// write, and its id. A write to a queue or a topic names a channel, and the id has the key of
    /// the reply, which is `c#n` for the nth write to the channel `c`. Where all these are more ids
    /// than a lineage can have the write is made, and the lineage stays; with every other fault
    /// nothing was written and the lineage stays too.
    pub fn write<P: Port>(
        &self,
        alloc: Global,
        port: &mut P,
        who: &mut Caller,
        key: Name,
        value: Value,
        lineage: &mut Lineage,
    ) -> Result<WriteId, ShimFault>
        requires { is_some (P.start port.old self.now.store) ≡ true }
        ensures answer { let step = between P.Port port.old port.new who.old who.new in
            Writes step self.now.store key value lineage.old lineage.new result }
        ensures fixed { (o : ℕ) → P.start port.new o ≡ P.start port.old o }
        ensures rest { P.rest port.new ≡ P.rest port.old }
    {
        let (key, stored) = handles_of(alloc, key, lineage)?;
        // the room that there may be need of, before anything is written
        let spare = spare_room(alloc)?;
        let _ascending = lineage.iter(); // so ids that are there already change nothing
        let taken = std::mem::replace(lineage, Lineage::root(alloc));
        let carried = match taken.reserve(1) {
            Ok(roomy) => roomy,
            Err((kept, NoMemory)) => {
                *lineage = kept;
                return Err(ShimFault::NoMemory);
            }
        };
        match self.put(port, who, key, value, stored) {
            Ok(made) => append_written(lineage, carried, spare, &made),
            Err(fault) => {
                *lineage = carried.into_lineage();
                Err(fault)
            }
        }
    }

    // Makes the write, which hands in these ids.
    fn put<P: Port>(
        &self,
        port: &mut P,
        who: &mut Caller,
        key: Handle<Name>,
        value: Value,
        stored: Handle<Lineage>,
    ) -> Result<MadeWrite, ShimFault>
        ensures answer { let step = between P.Port port.old port.new who.old who.new in
            Puts step self.now.store key value stored result }
        ensures fixed { (o : ℕ) → P.start port.new o ≡ P.start port.old o }
        ensures rest { P.rest port.new ≡ P.rest port.old }
    {
        let write = Call::Write {
            key,
            value,
            lineage: stored,
        };
        match who.ask::<P, Once>(port, self.store, write)?.reply {
            Reply::Written { key, version, over } => Ok(MadeWrite {
                id: WriteId {
                    store: self.store,
                    key: *key.get(),
                    version,
                },
                over,
            }),
            // by `IsAsked`: the entry that was made has the reply that its call is due
            _ => unreachable!(),
        }
    }

    /// Makes one look that is not dry, for the ids of the store. It gives a sight exactly where the
    /// look was made and named nothing missing and nothing unwritten, and `Unwritten` exactly where
    /// it was made and named some id as unwritten: the first.
    pub fn wait<P: Port>(
        &self,
        alloc: Global,
        port: &mut P,
        who: &mut Caller,
        ids: &Lineage,
    ) -> Result<Sight, ShimFault>
        requires { is_some (P.start port.old self.now.store) ≡ true }
        ensures answer { let step = between P.Port port.old port.new who.old who.new in
            Sees step self.now.store self.now.region (ids_of self.now.store ids.now) result }
        ensures fixed { (o : ℕ) → P.start port.new o ≡ P.start port.old o }
        ensures rest { P.rest port.new ≡ P.rest port.old }
    {
        let ids = ids_at(alloc, self.store, ids)?;
        see::<P, Once>(port, who, self.store, self.region, ids)
    }
}

impl<K: ReadByKey> StoreShim<K> {
    /// Makes one read. It gives the row that the region shows for the key.
    pub fn read<P: Port>(&self, port: &mut P, who: &mut Caller, key: Name) -> Result<Row, ShimFault>
        requires { is_some (P.start port.old self.now.store) ≡ true }
        ensures answer { let step = between P.Port port.old port.new who.old who.new in
            Reads step self.now.store self.now.region key result }
        ensures fixed { (o : ℕ) → P.start port.new o ≡ P.start port.old o }
        ensures rest { P.rest port.new ≡ P.rest port.old }
    {
        let region = self.region;
        let made = who.ask::<P, Once>(port, self.store, Call::Read { region, key })?;
        Ok(only_row(made.reply))
    }
}

impl StoreShim<TableStore> {
    /// Makes one scan. It gives the rows that the region shows for the keys that begin with the
    /// prefix, as the port answered.
    pub fn scan<P: Port>(
        &self,
        port: &mut P,
        who: &mut Caller,
        prefix: Name,
    ) -> Result<Rows, ShimFault>
        requires { is_some (P.start port.old self.now.store) ≡ true }
        ensures answer { let step = between P.Port port.old port.new who.old who.new in
            Scans step self.now.store self.now.region prefix result }
        ensures fixed { (o : ℕ) → P.start port.new o ≡ P.start port.old o }
        ensures rest { P.rest port.new ≡ P.rest port.old }
    {
        let region = self.region;
        let made = who.ask::<P, Once>(port, self.store, Call::Scan { region, prefix })?;
        let Reply::Shown(rows) = made.reply else {
            // by `IsAsked`: the entry that was made has the reply that its call is due
            unreachable!()
        };
        Ok(rows)
    }
}

impl StoreShim<TopicStore> {
    /// Makes one poll. It gives the row that the region shows for the key, which is that of a cell.
    pub fn poll<P: Port>(&self, port: &mut P, who: &mut Caller, key: Name) -> Result<Row, ShimFault>
        requires { is_some (P.start port.old self.now.store) ≡ true }
        ensures answer { let step = between P.Port port.old port.new who.old who.new in
            Polls step self.now.store self.now.region key result }
        ensures fixed { (o : ℕ) → P.start port.new o ≡ P.start port.old o }
        ensures rest { P.rest port.new ≡ P.rest port.old }
    {
        let region = self.region;
        let made = who.ask::<P, Once>(port, self.store, Call::Poll { region, key })?;
        Ok(only_row(made.reply))
    }
}

// The key and the lineage of a write, as its call holds them.
fn handles_of(
    alloc: Global,
    key: Name,
    lineage: &Lineage,
) -> Result<(Handle<Name>, Handle<Lineage>), NoMemory>
    ensures { IfOk result (λ handles. (handles.0 ≡ key) × (handles.1 ≡ lineage.now)) }
{
    let key = Handle::new(alloc, key)?;
    let stored = Handle::new(alloc, lineage.copy(alloc)?)?;
    Ok((key, stored))
}

// The ids of a store, as a look holds them.
fn ids_at(alloc: Global, store: u32, lineage: &Lineage) -> Result<Handle<Lineage>, NoMemory>
    ensures { IfOk result (λ ids. ids ≡ ids_of store lineage.now) }
{
    Handle::new(alloc, lineage.ids_of(alloc, store)?)
}

// The row of a reply that shows just one.
fn only_row(reply: Reply) -> Row
    requires { (row : Row) × IsShown reply row }
    ensures { IsShown reply result }
{
    let Reply::Shown(mut rows) = reply else {
        // by the `requires`, as below
        unreachable!()
    };
    match rows.pop() {
        Some(row) => row,
        None => unreachable!(),
    }
}

// Room for as many ids as a lineage may have.
fn spare_room(alloc: Global) -> Result<Roomy, NoMemory>
    ensures ids { IfOk result (λ spare. spare.ids ≡ []) }
    ensures room { IfOk result (λ spare. spare.spare ≡ MOST_IDS) }
{
    match Lineage::root(alloc).reserve(MOST_IDS as u32) {
        Ok(spare) => Ok(spare),
        Err((_, NoMemory)) => Err(NoMemory),
    }
}

// Puts the ids of a lineage where there is room for as many as one may have.
fn refill(spare: &mut Roomy, before: &Lineage)
    requires ids { spare.old.ids ≡ [] }
    requires room { spare.old.spare ≡ MOST_IDS }
    ensures ids { spare.new.ids ≡ before.now }
    ensures room { length spare.new.ids + spare.new.spare ≡ MOST_IDS }
{
    let _ascending = before.iter(); // so they are as many there
    let Ok(()) = spare.transfer(before) else {
        unreachable!() // they are those of a lineage
    };
}

// Adds the id of a write and what is kept beside it, which are few enough for a lineage.
fn add_written(ids: &mut Roomy, id: &WriteId, over: &Lineage)
    requires few { length (with_ids (id.now ∷ over.now) ids.old.ids) ≤ MOST_IDS }
    requires room { length ids.old.ids + ids.old.spare ≡ MOST_IDS }
    requires written { 1 ≤ id.now.version }
    ensures { ids.new.ids ≡ with_ids (id.now ∷ over.now) ids.old.ids }
{
    let Ok(_) = ids.append(*id) else {
        unreachable!() // they are few enough
    };
    let Ok(()) = ids.transfer(over) else {
        unreachable!() // as above
    };
}

// Appends the id of a write, and what is kept beside it, to what was carried, and puts the lineage
// back.
fn append_over(
    lineage: &mut Lineage,
    carried: Roomy,
    mut spare: Roomy,
    id: &WriteId,
    over: &Lineage,
) -> Result<WriteId, ShimFault>
    requires ids { spare.ids ≡ [] }
    requires room { spare.spare ≡ MOST_IDS }
    requires written { 1 ≤ id.now.version }
    ensures { Appends id.now over.now carried.ids lineage.new result }
{
    let before = carried.into_lineage();
    if before.union_len(id, over) > MOST_IDS as u32 {
        *lineage = before;
        return Err(ShimFault::LineageFull(*id));
    }
    refill(&mut spare, &before);
    add_written(&mut spare, id, over);
    *lineage = spare.into_lineage();
    Ok(*id)
}

// Appends the id of a write alone to what was carried, and puts the lineage back.
fn append_id(lineage: &mut Lineage, mut carried: Roomy, id: &WriteId) -> Result<WriteId, ShimFault>
    requires room { 1 ≤ carried.spare }
    requires written { 1 ≤ id.now.version }
    ensures { Appends id.now [] carried.ids lineage.new result }
{
    let added = carried.append(*id);
    *lineage = carried.into_lineage();
    match added {
        Ok(_) => Ok(*id),
        Err(RoomyFull) => Err(ShimFault::LineageFull(*id)),
    }
}

// Appends the id of a write that was made, and what is kept beside it, to what was carried, and puts
// the lineage back. Where the write keeps what it handed in, that is carried already.
fn append_written(
    lineage: &mut Lineage,
    carried: Roomy,
    spare: Roomy,
    made: &MadeWrite,
) -> Result<WriteId, ShimFault>
    requires ascending { IsAscending carried.ids }
    requires room { 1 ≤ carried.spare }
    requires spare { spare.ids ≡ [] }
    requires most { spare.spare ≡ MOST_IDS }
    requires written { 1 ≤ made.now.id.version }
    ensures { Appends made.now.id (unwrap_or made.now.over carried.ids) carried.ids lineage.new result }
{
    match &made.over {
        Some(over) => append_over(lineage, carried, spare, &made.id, over.get()),
        None => append_id(lineage, carried, &made.id),
    }
}
