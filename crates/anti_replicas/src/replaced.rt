ghost use Rattle.std.specs.Prelude.{◌≡◌, ◌≤◌, List, ◌∷◌, None, Some, length, nat_le, IfOk, IfSome, IfNone, OnOk};
ghost use Rattle.std.specs.List.{list_all};
ghost use Rattle.anti_ids.specs.Ids.{has_id, with_id, with_ids};
ghost use Rattle.anti_ids.specs.Invariants.{IsAscending};
ghost use Rattle.anti_ids.specs.declared.limits.TheConstants.{MOST_IDS};
ghost use Rattle.anti_kind.specs.declared.entry.Entry.{Entry};
ghost use Rattle.anti_kind.specs.Store.{Store, left_by, over, replaced, told_over, with_left, with_replaced};

use crate::looks::add_id;
use crate::replicas::Replicas;
use anti_ids::{Copies, Lineage, LineageRefused, MOST_IDS, Name, NoMemory, WriteId};
use anti_kind::{Handle, Row};
use std::alloc::Global;

// Adds the ids of another lineage to one that has room for them.
fn add_all(ids: &mut Lineage, further: &Lineage) -> Result<(), NoMemory>
    requires { length (with_ids further.now ids.old) ≤ MOST_IDS }
    ensures { OnOk result (ids.new ≡ with_ids further.now ids.old) }
{
    match ids.transfer(further) {
        Ok(()) => Ok(()),
        Err(LineageRefused::NoMemory) => Err(NoMemory),
        Err(LineageRefused::Full) => unreachable!(), // it has room
    }
}

// The union of a lineage, another one and an id. The other one goes first: where the lineage has nothing else its memory is shared.
fn union(
    alloc: Global,
    lineage: &Lineage,
    id: WriteId,
    further: &Lineage,
) -> Result<Lineage, NoMemory>
    requires version { 1 ≤ id.version }
    requires ascending { IsAscending lineage.now }
    requires room { length (with_ids (id ∷ further.now) lineage.now) ≤ MOST_IDS }
    ensures { IfOk result (λ l. l ≡ with_ids (id ∷ further.now) lineage.now) }
{
    let mut ids = lineage.copy(alloc)?;
    add_all(&mut ids, further)?;
    add_id(&mut ids, id)?;
    Ok(ids)
}

// What a write to a key keeps of the one that it replaces.
impl Replicas {
    ghost use Rattle.anti_replicas.specs.Stores.{At, MayKeep, number_of};

    /// The row of the write that one to the key replaces: of those to the key that of the last version. It takes no memory.
    pub fn replaced(&self, key: &Name) -> Option<&Row>
        ensures first { (s : Store) (h : List Entry) → At self.now s h → IfSome result (λ row. 1 ≤ row.now.version) }
        ensures some { (s : Store) (h : List Entry) → At self.now s h → IfSome result (λ row. replaced h key.now ≡ Some row.now) }
        ensures none { (s : Store) (h : List Entry) → At self.now s h → IfNone result (replaced h key.now ≡ None) }
    {
        match self.kept_at(self.newest.last(key)) {
            Some(kept) => Some(&kept.row),
            None => None,
        }
    }

    // The id of the write of a row.
    fn id_of(&self, row: &Row) -> WriteId
        ensures { result ≡ record { store = number_of self.now; key = row.now.key; version = row.now.version } }
    {
        WriteId {
            store: self.store,
            key: row.key,
            version: row.version,
        }
    }

    // Whether the lineage has no more ids than one may have, with what the write of a row leaves: its id and its lineage.
    fn has_room(&self, row: &Row, lineage: &Lineage) -> bool
        ensures { result ≡ nat_le (length (with_ids (left_by (number_of self.now) (Some row.now)) lineage.now)) MOST_IDS }
    {
        if lineage.len() + row.lineage.len() < MOST_IDS as u32 {
            return true;
        }
        lineage.union_len(&self.id_of(row), &row.lineage) <= MOST_IDS as u32
    }

    // Whether a write to the key would keep no more ids than a lineage may have. Mostly the key need not be looked up.
    pub(crate) fn keeps_few(&self, key: &Name, lineage: &Lineage) -> bool
        ensures { (s : Store) (h : List Entry) → At self.now s h
            → result ≡ nat_le (length (over s h key.now lineage.now)) MOST_IDS }
    {
        let len = lineage.len();
        if len.saturating_add(self.longest) < MOST_IDS as u32 {
            return true;
        }
        let _ascending = lineage.iter(); // so as many ids are kept as the union has
        match self.replaced(key) {
            Some(row) => self.has_room(row, lineage),
            None => true,
        }
    }

    // Whether the lineage has all that the write of a row leaves. The ids are gone over only where that of the write is there.
    fn has_left(&self, row: &Row, lineage: &Lineage) -> bool
        ensures { result ≡ list_all (λ id. has_id id lineage.now) (left_by (number_of self.now) (Some row.now)) }
    {
        let id = self.id_of(row);
        if !lineage.contains(&id) {
            return false;
        }
        let _ascending = lineage.iter(); // so the union has more ids where some are new
        lineage.union_len(&id, &row.lineage) == lineage.len()
    }

    // The lineage with what the write of a row leaves, where any of that is new.
    fn with_left(&self, row: &Row, lineage: &Lineage) -> Result<Option<Handle<Lineage>>, NoMemory>
        requires version { 1 ≤ row.now.version }
        requires room { length (with_replaced (number_of self.now) (Some row.now) lineage.now) ≤ MOST_IDS }
        ensures { IfOk result (λ told. told ≡ with_left (left_by (number_of self.now) (Some row.now)) lineage.now) }
    {
        if self.has_left(row, lineage) {
            return Ok(None);
        }
        let _ascending = lineage.iter(); // so the union is the same in whatever order it is made
        let ids = union(self.alloc, lineage, self.id_of(row), &row.lineage)?;
        Ok(Some(Handle::new(self.alloc, ids)?))
    }

    // What the reply to a write of the key tells that it keeps: the lineage that is handed in, with the id and the lineage of the write
    // that it replaces. Where that brings nothing new it is `None` and takes no memory.
    pub(crate) fn told_over(
        &self,
        key: &Name,
        lineage: &Lineage,
    ) -> Result<Option<Handle<Lineage>>, NoMemory>
        requires { MayKeep self.now key.now lineage.now }
        ensures { (s : Store) (h : List Entry) → At self.now s h → IfOk result (λ told. told ≡ told_over s h key.now lineage.now) }
    {
        match self.replaced(key) {
            Some(row) => self.with_left(row, lineage),
            None => Ok(None),
        }
    }
}
