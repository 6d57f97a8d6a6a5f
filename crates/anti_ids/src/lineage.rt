ghost use Rattle.std.specs.Prelude.{◌≡◌, ◌-◌, ◌<◌, ◌≤◌, [], ◌∷◌, true, false, not, ◌&&◌, ◌||◌, length, slice_get, ◌==◌, OnOk, OnErr, IfOk, IfErr, IsErrOf};
ghost use Rattle.anti_ids.specs.Invariants.{IsLineage};
ghost use Rattle.anti_ids.specs.Ids.{has_id, is_id, ids_of, with_id, with_ids, without_id};

use crate::copies::Copies;
use crate::held_ids::HeldIds;
use crate::id::WriteId;
use crate::ids::Ids;
use crate::limits::MOST_IDS;
use crate::memory::NoMemory;
use crate::roomy::Roomy;
use std::alloc::Global;
use std::marker::Model;
use thiserror::Error;

/// Why a lineage was not changed. It is as it was.
#[derive(Clone, Copy, Debug, PartialEq, Eq, Error)]
pub enum LineageRefused {
    /// The lineage would have more than `MOST_IDS` ids.
    #[error("the lineage has as many ids as one may have")]
    Full,
    /// There was no memory for a further id.
    #[error("no memory for a further id")]
    NoMemory,
}

/// The set of the writes that a request depends on: at most `MOST_IDS` ids, each of version 1 or
/// later, kept in ascending order. Its copies share its memory.
pub struct Lineage {
    pub(crate) held: HeldIds,
}

impl Model for Lineage {
    ghost use Rattle.std.specs.Prelude.{List};
    ghost use Rattle.anti_ids.specs.declared.id.WriteId.{WriteId};
    ghost use Rattle.anti_ids.specs.inner.Held.{IsHeld, held_ids};

    ghost Value = { List WriteId };

    ghost view = { λ l. held_ids l.held };

    ghost invariant = { λ l. IsHeld l.held };
}

// By hand, so that no caller sees the fields.
impl Drop for Lineage {
    fn drop(self) {
        let Lineage { held } = self;
        match held {
            HeldIds::Own(ids) => drop(ids),
            shared => let_go(shared),
        }
    }
}

// Lets go of ids that others may hold too. Not inlined, so that letting go of a lineage is short where nobody else holds it.
#[inline(never)]
fn let_go(_shared: HeldIds) {}

impl Lineage {
    /// The lineage of no ids. It takes no memory.
    pub fn root(alloc: Global) -> Lineage
        ensures { result ≡ [] }
    {
        Lineage {
            held: HeldIds::Own(Vec::new(alloc)),
        }
    }

    /// Adds an id of version 1 or later, and tells whether it is new.
    pub fn append(&mut self, id: WriteId) -> Result<bool, LineageRefused>
        requires { 1 ≤ id.version }
        ensures ok { IfOk result (λ _. self.new ≡ with_id id self.old) }
        ensures members { (i : WriteId) → OnOk result (has_id i self.new ≡ (is_id i id || has_id i self.old)) }
        ensures new { IfOk result (λ is_new. is_new ≡ not (has_id id self.old)) }
        ensures fits { IfOk result (λ _. length (with_id id self.old) ≤ MOST_IDS) }
        ensures full { IsErrOf result LineageRefused.Full → (has_id id self.old ≡ false) × (length self.old ≡ MOST_IDS) }
        ensures too_many { IsErrOf result LineageRefused.Full → MOST_IDS < length (with_id id self.old) }
        ensures err { OnErr result (self.new ≡ self.old) }
    {
        let is_new = self.held.add(id)?;
        Ok(is_new)
    }

    /// Takes an id out, and tells whether it was there. It takes no memory.
    pub fn remove(&mut self, id: &WriteId) -> bool
        ensures found { result ≡ has_id id.now self.old }
        ensures ids { self.new ≡ without_id id.now self.old }
        ensures members { (i : WriteId) → has_id i self.new ≡ (has_id i self.old && not (is_id i id.now)) }
    {
        self.held.take_out(id)
    }

    /// Adds the ids of another lineage: the union of the two.
    pub fn transfer(&mut self, other: &Lineage) -> Result<(), LineageRefused>
        ensures ok { OnOk result (self.new ≡ with_ids other.now self.old) }
        ensures members { (i : WriteId) → OnOk result (has_id i self.new ≡ (has_id i other.now || has_id i self.old)) }
        ensures fits { OnOk result (length (with_ids other.now self.old) ≤ MOST_IDS) }
        ensures full { IsErrOf result LineageRefused.Full → MOST_IDS < length (with_ids other.now self.old) }
        ensures err { OnErr result (self.new ≡ self.old) }
    {
        self.held.transfer(&other.held)?;
        Ok(())
    }

    /// The lineage with room for at least `more` further ids. Without memory for them it is handed back.
    pub fn reserve(self, more: u32) -> Result<Roomy, (Lineage, NoMemory)>
        ensures ids { IfOk result (λ roomy. roomy.ids ≡ self) }
        ensures spare { IfOk result (λ roomy. roomy.spare ≡ more) }
        ensures err { IfErr result (λ refused. refused.0 ≡ self) }
    {
        let spare = more as usize;
        let Lineage { held } = self;
        match held.into_list(spare) {
            Ok(ids) => Ok(Roomy { ids, spare }),
            Err(held) => Err((Lineage { held }, NoMemory)),
        }
    }

    /// The lineage of the ids of one store.
    pub fn ids_of(&self, alloc: Global, store: u32) -> Result<Lineage, NoMemory>
        ensures ok { IfOk result (λ l. l ≡ ids_of store self.now) }
        ensures members { (i : WriteId) → IfOk result (λ l. has_id i l ≡ (has_id i self.now && i.store == store)) }
    {
        let held = self.held.of_store(alloc, store)?;
        Ok(Lineage { held })
    }

    /// Gives the lineage up.
    pub fn stop(self) {}

    /// Whether an id is in the lineage.
    pub fn contains(&self, id: &WriteId) -> bool
        ensures { result ≡ has_id id.now self.now }
    {
        self.held.has(id)
    }

    /// The number of ids, at most `MOST_IDS`.
    pub fn len(&self) -> u32
        ensures len { result ≡ length self.now }
        ensures short { length self.now ≤ MOST_IDS }
    {
        self.held.len() as u32
    }

    /// The number of ids in the union of this lineage, another one and an id. It takes no memory.
    pub fn union_len(&self, id: &WriteId, other: &Lineage) -> u32
        ensures { result ≡ length (with_ids (id.now ∷ other.now) self.now) }
    {
        self.held.union_len(id, &other.held) as u32
    }

    /// Whether there is no id.
    pub fn is_empty(&self) -> bool
        ensures { result ≡ (length self.now == 0) }
    {
        self.held.len() == 0
    }

    /// The id at an index, counted from 0 in ascending order.
    pub fn at(&self, index: u32) -> WriteId
        requires { index < length self.now }
        ensures { slice_get self.now index ≡ Some result }
    {
        self.held.at(index as usize)
    }

    /// The last id in ascending order; `None` where there is none.
    pub fn last(&self) -> Option<WriteId>
        ensures last { result ≡ slice_get self.now (length self.now - 1) }
        ensures lineage { IsLineage self.now }
    {
        let index = self.held.len().checked_sub(1)?;
        Some(self.held.at(index))
    }

    /// The ids in ascending order.
    pub fn iter(&self) -> Ids
        ensures ids { result ≡ self.now }
        ensures lineage { IsLineage self.now }
    {
        self.held.ids()
    }
}

impl Copies for Lineage {
    fn copy(&self, alloc: Global) -> Result<Lineage, NoMemory> {
        let held = self.held.copy(alloc)?;
        Ok(Lineage { held })
    }
}
