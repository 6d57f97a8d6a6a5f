// How what a lineage holds grows: by one id, or by those of another lineage.
ghost use Rattle.std.specs.Prelude.{◌≡◌, ◌+◌, ◌<◌, ◌≤◌, ◌∷◌, true, false, not, length, OnOk, OnErr, IfOk, IfErr, IsErrOf, IsTrue};
ghost use Rattle.anti_ids.specs.Invariants.{IsLineage};
ghost use Rattle.anti_ids.specs.Ids.{has_id, with_id, with_ids};
ghost use Rattle.anti_ids.specs.inner.Held.{IsHeld, held_ids};

use crate::block::Block;
use crate::held_ids::HeldIds;
use crate::id::WriteId;
use crate::ids::Ids;
use crate::left::may_grow;
use crate::limits::MOST_IDS;
use crate::lineage::LineageRefused;
use crate::memory::NoMemory;

// Adds an id to a block, and tells whether it is new: in place where nobody else holds the block.
fn add_to(block: &mut Block, id: WriteId) -> Result<bool, LineageRefused>
    requires lineage { IsLineage block.old }
    requires written { 1 ≤ id.version }
    ensures ok { IfOk result (λ _. block.new ≡ with_id id block.old) }
    ensures lineage { IsLineage block.new }
    ensures new { IfOk result (λ is_new. is_new ≡ not (has_id id block.old)) }
    ensures fits { OnOk result (length (with_id id block.old) ≤ MOST_IDS) }
    ensures full { IsErrOf result LineageRefused.Full → (has_id id block.old ≡ false) × (length block.old ≡ MOST_IDS) }
    ensures too_many { IsErrOf result LineageRefused.Full → MOST_IDS < length (with_id id block.old) }
    ensures longer { length block.new ≤ length block.old + 1 }
    ensures err { OnErr result (block.new ≡ block.old) }
{
    let Err(at) = block.place_of(&id) else {
        return Ok(false);
    };
    if block.len() == MOST_IDS {
        return Err(LineageRefused::Full);
    }
    match block.grow(at, id) {
        Ok(()) => Ok(true),
        Err(NoMemory) => Err(LineageRefused::NoMemory),
    }
}

// Adds ids to a block, one after another.
fn add_each(block: &mut Block, further: Ids) -> Result<(), LineageRefused>
    requires lineage { IsLineage block.old }
    requires further { IsLineage further }
    ensures ok { OnOk result (block.new ≡ with_ids further.entry block.old) }
    ensures lineage { IsLineage block.new }
    ensures full { IsErrOf result LineageRefused.Full → MOST_IDS < length (with_ids further.entry block.old) }
{
    for id in further {
        add_to(block, *id)?;
    }
    Ok(())
}

// The ids of a block.
fn held_over(block: Block) -> Result<HeldIds, LineageRefused>
    requires { IsLineage block }
    ensures ids { IfOk result (λ h. held_ids h ≡ block) }
    ensures lineage { IfOk result (λ h. IsHeld h) }
    ensures err { IfErr result (λ refused. refused ≡ LineageRefused.NoMemory) }
{
    match HeldIds::over(block) {
        Ok(held) => Ok(held),
        Err(NoMemory) => Err(LineageRefused::NoMemory),
    }
}

// Whether an id is known to come behind another, by the store and the version alone: names are dear to compare.
fn is_behind(other: &WriteId, id: &WriteId) -> bool {
    other.store > id.store || other.store == id.store && other.version > id.version
}

// Goes past ids up to an id, or to the first that is known to come behind it, and tells whether that id came.
fn comes(ids: &mut Ids, id: &WriteId) -> bool
    ensures there { IsTrue result → has_id id.now ids.old ≡ true }
    ensures rest { (i : WriteId) → has_id i ids.new ≡ true → has_id i ids.old ≡ true }
{
    while let Some(next) = ids.next() {
        if next.version == id.version && next == id {
            return true;
        }
        if is_behind(next, id) {
            return false;
        }
    }
    false
}

impl HeldIds {
    // Whether all of these ids are held. It goes over both once.
    fn has_all(&self, ids: Ids) -> bool
        requires { IsHeld self.now }
        ensures { IsTrue result → with_ids ids.entry (held_ids self.now) ≡ held_ids self.now }
    {
        let mut held = self.ids();
        let mut rest = ids;
        while let Some(id) = rest.next() {
            if !comes(&mut held, id) {
                return false;
            }
            held.pass_same(&mut rest);
        }
        true
    }

    // How many of the ids are not held.
    fn count_new(&self, ids: Ids) -> usize
        requires lineage { IsHeld self.now }
        requires ids { IsLineage ids }
        ensures new { length (held_ids self.now) + result ≡ length (with_ids ids.entry (held_ids self.now)) }
        ensures few { result ≤ MOST_IDS }
    {
        let mut count = 0;
        for id in ids {
            if !self.has(id) {
                count += 1;
            }
        }
        count
    }

    // How many ids this lineage and another have together. Where the other has no new ones, it goes over both once.
    fn len_with(&self, other: &HeldIds) -> usize
        requires lineage { IsHeld self.now }
        requires other { IsHeld other.now }
        ensures len { result ≡ length (with_ids (held_ids other.now) (held_ids self.now)) }
        ensures few { result ≤ MOST_IDS + MOST_IDS }
    {
        if self.has_all(other.ids()) {
            return self.len();
        }
        self.len() + self.count_new(other.ids())
    }

    // How many ids the two and an id have together.
    pub(crate) fn union_len(&self, id: &WriteId, other: &HeldIds) -> usize
        requires lineage { IsHeld self.now }
        requires other { IsHeld other.now }
        ensures len { result ≡ length (with_ids (id.now ∷ held_ids other.now) (held_ids self.now)) }
        ensures few { result ≤ MOST_IDS + MOST_IDS + 1 }
    {
        let len = self.len_with(other);
        if self.has(id) || other.has(id) {
            return len;
        }
        len + 1
    }

    // The ids in a block that may grow.
    fn block_to_grow(&self) -> Result<Block, LineageRefused>
        requires { IsHeld self.now }
        ensures ids { IfOk result (λ b. b ≡ held_ids self.now) }
        ensures lineage { IfOk result (λ b. IsLineage b) }
        ensures err { IfErr result (λ refused. refused ≡ LineageRefused.NoMemory) }
    {
        match self.block() {
            Ok(block) => Ok(block),
            Err(NoMemory) => Err(LineageRefused::NoMemory),
        }
    }

    // Adds an id, and tells whether it is new.
    pub(crate) fn add(&mut self, id: WriteId) -> Result<bool, LineageRefused>
        requires lineage { IsHeld self.old }
        requires written { 1 ≤ id.version }
        ensures ok { IfOk result (λ _. held_ids self.new ≡ with_id id (held_ids self.old)) }
        ensures lineage { IsHeld self.new }
        ensures new { IfOk result (λ is_new. is_new ≡ not (has_id id (held_ids self.old))) }
        ensures fits { OnOk result (length (with_id id (held_ids self.old)) ≤ MOST_IDS) }
        ensures full { IsErrOf result LineageRefused.Full → (has_id id (held_ids self.old) ≡ false) × (length (held_ids self.old) ≡ MOST_IDS) }
        ensures too_many { IsErrOf result LineageRefused.Full → MOST_IDS < length (with_id id (held_ids self.old)) }
        ensures err { OnErr result (held_ids self.new ≡ held_ids self.old) }
    {
        match self {
            HeldIds::Short(short) if may_grow(&short.block, short.words.as_slice()) => {
                add_to(&mut short.block, id)
            }
            HeldIds::Long(long) if may_grow(&long.block, long.words.as_slice()) => {
                add_to(&mut long.block, id)
            }
            _ => self.add_apart(id),
        }
    }

    // The same where the ids in memory can't grow by one: an id that is gone comes back, and any other makes a block of its own.
    fn add_apart(&mut self, id: WriteId) -> Result<bool, LineageRefused>
        requires lineage { IsHeld self.old }
        requires written { 1 ≤ id.version }
        ensures ok { IfOk result (λ _. held_ids self.new ≡ with_id id (held_ids self.old)) }
        ensures lineage { IsHeld self.new }
        ensures new { IfOk result (λ is_new. is_new ≡ not (has_id id (held_ids self.old))) }
        ensures fits { OnOk result (length (with_id id (held_ids self.old)) ≤ MOST_IDS) }
        ensures full { IsErrOf result LineageRefused.Full → (has_id id (held_ids self.old) ≡ false) × (length (held_ids self.old) ≡ MOST_IDS) }
        ensures too_many { IsErrOf result LineageRefused.Full → MOST_IDS < length (with_id id (held_ids self.old)) }
        ensures err { OnErr result (held_ids self.new ≡ held_ids self.old) }
    {
        if self.has(&id) {
            return Ok(false);
        }
        if self.bring_back(&id) {
            return Ok(true);
        }
        let mut block = self.block_to_grow()?;
        let is_new = add_to(&mut block, id)?;
        *self = held_over(block)?;
        Ok(is_new)
    }

    // The ids of two lineages, for one that has some that the other has not.
    fn union(&self, other: &HeldIds) -> Result<HeldIds, LineageRefused>
        requires lineage { IsHeld self.now }
        requires other { IsHeld other.now }
        ensures ok { IfOk result (λ h. held_ids h ≡ with_ids (held_ids other.now) (held_ids self.now)) }
        ensures lineage { IfOk result (λ h. IsHeld h) }
        ensures full { IsErrOf result LineageRefused.Full → MOST_IDS < length (with_ids (held_ids other.now) (held_ids self.now)) }
    {
        if other.has_all(self.ids()) {
            let block = other.block_to_grow()?;
            return held_over(block);
        }
        let mut block = self.block_to_grow()?;
        add_each(&mut block, other.ids())?;
        held_over(block)
    }

    // Adds the ids of another lineage.
    pub(crate) fn transfer(&mut self, other: &HeldIds) -> Result<(), LineageRefused>
        requires lineage { IsHeld self.old }
        requires other { IsHeld other.now }
        ensures ok { OnOk result (held_ids self.new ≡ with_ids (held_ids other.now) (held_ids self.old)) }
        ensures lineage { IsHeld self.new }
        ensures fits { OnOk result (length (with_ids (held_ids other.now) (held_ids self.old)) ≤ MOST_IDS) }
        ensures full { IsErrOf result LineageRefused.Full → MOST_IDS < length (with_ids (held_ids other.now) (held_ids self.old)) }
        ensures err { OnErr result (self.new ≡ self.old) }
    {
        if self.has_all(other.ids()) {
            return Ok(());
        }
        *self = self.union(other)?;
        Ok(())
    }
}
