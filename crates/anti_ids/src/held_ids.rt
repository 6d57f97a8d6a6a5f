ghost use Rattle.std.specs.Prelude.{◌≡◌, ◌+◌, ◌<◌, ◌≤◌, false, length, slice_get, vec_capacity, IfOk, IfErr, IsTrue};
ghost use Rattle.anti_ids.specs.Invariants.{IsLineage};
ghost use Rattle.anti_ids.specs.Ids.{has_id, ids_of, with_id, without_id};
ghost use Rattle.anti_ids.specs.inner.Held.{IsHeld, base_ids, held_ids, range_of};
ghost use Rattle.anti_ids.specs.inner.Left.{AreMarked, left_for};

use crate::ascending::place_of;
use crate::block::Block;
use crate::id::WriteId;
use crate::ids::Ids;
use crate::left::{bring_back_to, gone_by, is_left, left_at, left_len, left_range, take_from};
use crate::limits::MOST_IDS;
use crate::marks::{FEW_IDS, FEW_WORDS, WORDS};
use crate::memory::NoMemory;
use crate::walk::Walk;
use std::alloc::Global;

// A block of few ids, each with a mark: those that are marked are gone for one of its owners.
#[derive(Drop)]
pub(crate) struct Short {
    pub(crate) block: Block,
    pub(crate) words: [u64; FEW_WORDS],
}

// The same of as many ids as a lineage may have. What holds a lineage is moved often, so these marks stand in memory of their own.
#[derive(Drop)]
pub(crate) struct Long {
    pub(crate) block: Block,
    pub(crate) words: Box<[u64; WORDS]>,
}

// How a lineage holds its ids.
#[derive(Drop)]
pub(crate) enum HeldIds {
    // Nobody else holds them.
    Own(Vec<WriteId>),
    // Others may hold the block too.
    Short(Short),
    Long(Long),
}

impl HeldIds {
    // The ids of a block.
    pub(crate) fn over(block: Block) -> Result<HeldIds, NoMemory>
        requires { IsLineage block }
        ensures ids { IfOk result (λ h. held_ids h ≡ block) }
        ensures lineage { IfOk result (λ h. IsHeld h) }
    {
        if block.len() <= FEW_IDS {
            return Ok(HeldIds::Short(Short {
                block,
                words: [0; FEW_WORDS],
            }));
        }
        match Box::new(block.allocator(), [0; WORDS]) {
            Ok(words) => Ok(HeldIds::Long(Long { block, words })),
            Err(_) => Err(NoMemory),
        }
    }

    // The ids in memory.
    fn walk(&self) -> Walk
        ensures { result ≡ base_ids self.now }
    {
        let block = match self {
            HeldIds::Own(ids) => return Walk::over(ids.as_slice()),
            HeldIds::Short(short) => &short.block,
            HeldIds::Long(long) => &long.block,
        };
        block.walk()
    }

    // Those of them that are gone, where any is.
    fn gone(&self) -> Option<&[u64]>
        requires { IsHeld self.now }
        ensures left { left_for result 0 (base_ids self.now) ≡ held_ids self.now }
        ensures marked { AreMarked result (length (base_ids self.now)) }
    {
        match self {
            HeldIds::Own(_) => None,
            HeldIds::Short(short) => gone_by(short.words.as_slice()),
            HeldIds::Long(long) => gone_by(long.words.as_slice()),
        }
    }

    // The ids one after another.
    pub(crate) fn ids(&self) -> Ids
        requires { IsHeld self.now }
        ensures ids { result ≡ held_ids self.now }
        ensures lineage { IsLineage (held_ids self.now) }
    {
        Ids::over(self.walk(), 0, self.gone())
    }

    // What further memory is of.
    fn allocator(&self) -> Global {
        match self {
            HeldIds::Own(ids) => *ids.allocator(),
            HeldIds::Short(short) => short.block.allocator(),
            HeldIds::Long(long) => long.block.allocator(),
        }
    }

    pub(crate) fn len(&self) -> usize
        requires { IsHeld self.now }
        ensures len { result ≡ length (held_ids self.now) }
        ensures short { length (held_ids self.now) ≤ MOST_IDS }
    {
        match self {
            HeldIds::Own(ids) => ids.len(),
            HeldIds::Short(short) => left_len(&short.block, short.words.as_slice()),
            HeldIds::Long(long) => left_len(&long.block, long.words.as_slice()),
        }
    }

    // The id at an index.
    pub(crate) fn at(&self, index: usize) -> WriteId
        requires lineage { IsHeld self.now }
        requires within { index < length (held_ids self.now) }
        ensures { slice_get (held_ids self.now) index ≡ Some result }
    {
        match self {
            HeldIds::Own(ids) => ids[index],
            HeldIds::Short(short) => left_at(&short.block, short.words.as_slice(), index),
            HeldIds::Long(long) => left_at(&long.block, long.words.as_slice(), index),
        }
    }

    // Whether an id is held.
    pub(crate) fn has(&self, id: &WriteId) -> bool
        requires { IsHeld self.now }
        ensures { result ≡ has_id id.now (held_ids self.now) }
    {
        match self {
            HeldIds::Own(ids) => place_of(ids.as_slice(), id).is_ok(),
            HeldIds::Short(short) => is_left(&short.block, short.words.as_slice(), id),
            HeldIds::Long(long) => is_left(&long.block, long.words.as_slice(), id),
        }
    }

    // The ids for one more owner.
    pub(crate) fn copy(&self, alloc: Global) -> Result<HeldIds, NoMemory>
        requires { IsHeld self.now }
        ensures ids { IfOk result (λ h. held_ids h ≡ held_ids self.now) }
        ensures lineage { IfOk result (λ h. IsHeld h) }
    {
        match self {
            HeldIds::Own(ids) => {
                if ids.is_empty() {
                    return Ok(HeldIds::Own(Vec::new(alloc)));
                }
                HeldIds::over(Block::of(alloc, ids.as_slice())?)
            }
            HeldIds::Short(short) => Ok(HeldIds::Short(Short {
                block: short.block.share()?,
                words: short.words,
            })),
            HeldIds::Long(long) => match Box::new(alloc, *long.words) {
                Ok(words) => Ok(HeldIds::Long(Long {
                    block: long.block.share()?,
                    words,
                })),
                Err(_) => Err(NoMemory),
            },
        }
    }

    // A range of the ids in memory without those that are gone, in a block.
    fn range(&self, from: usize, len: usize) -> Result<Block, NoMemory>
        requires lineage { IsHeld self.now }
        requires within { from + len ≤ length (base_ids self.now) }
        ensures { IfOk result (λ b. b ≡ range_of from len self.now) }
    {
        match self {
            HeldIds::Own(ids) => {
                let own = ids.as_slice().split_at(from).1.split_at(len).0;
                Block::of(*ids.allocator(), own)
            }
            HeldIds::Short(short) => left_range(&short.block, short.words.as_slice(), from, len),
            HeldIds::Long(long) => left_range(&long.block, long.words.as_slice(), from, len),
        }
    }

    // The ids of one store. They share their memory with all of the ids, where none is gone, and with copies.
    pub(crate) fn of_store(&self, alloc: Global, store: u32) -> Result<HeldIds, NoMemory>
        requires { IsHeld self.now }
        ensures ids { IfOk result (λ h. held_ids h ≡ ids_of store (held_ids self.now)) }
        ensures lineage { IfOk result (λ h. IsHeld h) }
    {
        let (from, len) = self.walk().range_of(store);
        if len == 0 {
            return Ok(HeldIds::Own(Vec::new(alloc)));
        }
        let block = self.range(from, len)?;
        HeldIds::over(block)
    }

    // The ids in a list of their own, with room for more.
    fn listed(&self, more: usize) -> Result<Vec<WriteId>, NoMemory>
        requires { IsHeld self.now }
        ensures ids { IfOk result (λ v. v.items ≡ held_ids self.now) }
        ensures room { IfOk result (λ v. length (held_ids self.now) + more ≤ vec_capacity v) }
    {
        let mut ids: Vec<WriteId> = match self.ids().copied().collect(self.allocator()) {
            Ok(ids) => ids,
            Err(_) => return Err(NoMemory),
        };
        match ids.reserve(more) {
            Ok(()) => Ok(ids),
            Err(_) => Err(NoMemory),
        }
    }

    // The ids in a block, of which none is gone.
    pub(crate) fn block(&self) -> Result<Block, NoMemory>
        requires { IsHeld self.now }
        ensures { IfOk result (λ b. b ≡ held_ids self.now) }
    {
        match self {
            HeldIds::Own(ids) => Block::of(*ids.allocator(), ids.as_slice()),
            HeldIds::Short(short) => left_range(
                &short.block,
                short.words.as_slice(),
                0,
                short.block.len(),
            ),
            HeldIds::Long(long) => left_range(
                &long.block,
                long.words.as_slice(),
                0,
                long.block.len(),
            ),
        }
    }

    // Takes an id out, and tells whether it was there. It takes no memory.
    pub(crate) fn take_out(&mut self, id: &WriteId) -> bool
        requires { IsHeld self.old }
        ensures ids { held_ids self.new ≡ without_id id.now (held_ids self.old) }
        ensures found { result ≡ has_id id.now (held_ids self.old) }
        ensures lineage { IsHeld self.new }
    {
        match self {
            HeldIds::Own(ids) => remove(ids, id),
            HeldIds::Short(short) => take_from(&short.block, &mut short.words, id),
            HeldIds::Long(long) => take_from(&long.block, long.words.as_mut_slice(), id),
        }
    }

    // Brings back an id that is gone from the block that it stands in, and tells whether that is so. It takes no memory.
    pub(crate) fn bring_back(&mut self, id: &WriteId) -> bool
        requires { IsHeld self.old }
        ensures ids { IsTrue result → held_ids self.new ≡ with_id id.now (held_ids self.old) }
        ensures new { IsTrue result → has_id id.now (held_ids self.old) ≡ false }
        ensures same { result ≡ false → held_ids self.new ≡ held_ids self.old }
        ensures lineage { IsHeld self.new }
    {
        match self {
            HeldIds::Own(_) => false,
            HeldIds::Short(short) => bring_back_to(&short.block, &mut short.words, id),
            HeldIds::Long(long) => bring_back_to(&long.block, long.words.as_mut_slice(), id),
        }
    }

    // The ids in a list that nobody else holds, with room for more. Without memory for it they are handed back.
    pub(crate) fn into_list(self, more: usize) -> Result<Vec<WriteId>, HeldIds>
        requires { IsHeld self }
        ensures ids { IfOk result (λ v. v.items ≡ held_ids self) }
        ensures room { IfOk result (λ v. length (held_ids self) + more ≤ vec_capacity v) }
        ensures err { IfErr result (λ h. (held_ids h ≡ held_ids self) × IsHeld h) }
    {
        match self {
            HeldIds::Own(mut ids) => match ids.reserve(more) {
                Ok(()) => Ok(ids),
                Err(_) => Err(HeldIds::Own(ids)),
            },
            shared => match shared.listed(more) {
                Ok(ids) => Ok(ids),
                Err(NoMemory) => Err(shared),
            },
        }
    }
}

// Removes an id, and tells whether it was there.
fn remove(ids: &mut Vec<WriteId>, id: &WriteId) -> bool
    requires { IsLineage ids.old.items }
    ensures ids { ids.new.items ≡ without_id id.now ids.old.items }
    ensures found { result ≡ has_id id.now ids.old.items }
    ensures lineage { IsLineage ids.new.items }
{
    let Ok(at) = place_of(ids.as_slice(), id) else {
        return false;
    };
    ids.remove(at);
    true
}
