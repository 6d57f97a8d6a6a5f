ghost use Rattle.std.specs.Prelude.{◌≡◌, ◌+◌, ◌<◌, ◌≤◌, ◌∷◌, ◌++◌, length, take, drop, slice_get, OnOk, OnErr, IfOk};
ghost use Rattle.std.specs.Arc.{arc_value};
ghost use Rattle.anti_ids.specs.Invariants.{IsAscending};
ghost use Rattle.anti_ids.specs.inner.Parts.{joined, put_at};
ghost use Rattle.anti_ids.specs.inner.Places.{IsPlace};

use crate::copies::Copies;
use crate::id::WriteId;
use crate::id_part::IdPart;
use crate::id_parts;
use crate::memory::NoMemory;
use crate::walk::Walk;
use std::alloc::{AllocError, Global};
use std::marker::Model;
use std::sync::Arc;

// A list of ids that any number of owners share. It stands in parts, which it shares with the blocks that it was made of, and may be
// a range of the ids there.
#[derive(Drop)]
pub(crate) struct Block {
    parts: Arc<Vec<IdPart>>,
    // How many ids stand in the parts.
    all: u16,
    // From which of them on how many are the block's.
    from: u16,
    len: u16,
}

impl Model for Block {
    ghost use Rattle.std.specs.Prelude.{◌≡◌, ◌+◌, ◌^◌, ◌<◌, ◌≤◌, List, length, take, drop};
    ghost use Rattle.std.specs.Arc.{arc_value};
    ghost use Rattle.anti_ids.specs.declared.id.WriteId.{WriteId};
    ghost use Rattle.anti_ids.specs.inner.Parts.{joined};

    ghost Value = { List WriteId };

    ghost view = { λ b. take b.len (drop b.from (joined (arc_value b.parts).items)) };

    ghost invariant = { λ b. (length (joined (arc_value b.parts).items) ≡ b.all) × (b.from + b.len ≤ b.all) × (b.all < 2 ^ 16) };
}

// Parts of so many ids with an id at an index, in a list of their own.
fn parts_with(
    parts: &Arc<Vec<IdPart>>,
    len: usize,
    at: usize,
    id: WriteId,
) -> Result<Arc<Vec<IdPart>>, NoMemory>
    requires len { length (joined (arc_value parts.now).items) ≡ len }
    requires within { at ≤ len }
    ensures { IfOk result (λ more. joined (arc_value more).items ≡ put_at at id (joined (arc_value parts.now).items)) }
{
    let alloc = *parts.allocator();
    let mut parts = IdPart::copy_all(parts.as_slice(), 1, alloc)?;
    id_parts::put(&mut parts, len, at, id)?;
    match Arc::new(alloc, parts) {
        Ok(parts) => Ok(parts),
        Err(_) => Err(NoMemory),
    }
}

// Puts an id at an index of parts of so many ids: in place where nobody else holds them, else in a list of their own.
fn put(parts: &mut Arc<Vec<IdPart>>, len: usize, at: usize, id: WriteId) -> Result<(), NoMemory>
    requires len { length (joined (arc_value parts.old).items) ≡ len }
    requires within { at ≤ len }
    ensures ok { OnOk result (joined (arc_value parts.new).items ≡ put_at at id (joined (arc_value parts.old).items)) }
    ensures err { OnErr result (joined (arc_value parts.new).items ≡ joined (arc_value parts.old).items) }
{
    match Arc::get_mut(parts) {
        Some(parts) => id_parts::put(parts, len, at, id),
        None => {
            *parts = parts_with(parts, len, at, id)?;
            Ok(())
        }
    }
}

impl Block {
    // A block of these ids.
    pub(crate) fn of(alloc: Global, ids: &[WriteId]) -> Result<Block, NoMemory>
        ensures { IfOk result (λ b. b ≡ ids.now) }
    {
        let Ok(len) = u16::try_from(ids.len()) else {
            return Err(NoMemory); // a lineage has far fewer
        };
        match Arc::new(alloc, id_parts::parts_of(alloc, ids)?) {
            Ok(parts) => Ok(Block {
                parts,
                all: len,
                from: 0,
                len,
            }),
            Err(_) => Err(NoMemory),
        }
    }

    // A range of the block for one more owner. It takes no memory.
    pub(crate) fn range(&self, from: usize, len: usize) -> Result<Block, NoMemory>
        requires { from + len ≤ length self.now }
        ensures { IfOk result (λ b. b ≡ take len (drop from self.now)) }
    {
        match Arc::try_clone(&self.parts) {
            Ok(parts) => Ok(Block {
                parts,
                all: self.all,
                from: self.from + from as u16,
                len: len as u16,
            }),
            Err(_) => Err(NoMemory),
        }
    }

    // The block for one more owner. It takes no memory.
    pub(crate) fn share(&self) -> Result<Block, NoMemory>
        ensures { IfOk result (λ b. b ≡ self.now) }
    {
        self.range(0, self.len as usize)
    }

    // What its memory is of.
    pub(crate) fn allocator(&self) -> Global {
        *self.parts.allocator()
    }

    pub(crate) fn len(&self) -> usize
        ensures { result ≡ length self.now }
    {
        self.len as usize
    }

    // The id at an index.
    pub(crate) fn at(&self, index: usize) -> WriteId
        requires { index < length self.now }
        ensures { slice_get self.now index ≡ Some result }
    {
        id_parts::at(
            self.parts.as_slice(),
            self.all as usize,
            self.from as usize + index,
        )
    }

    // The ids one after another.
    pub(crate) fn walk(&self) -> Walk
        ensures { result ≡ self.now }
    {
        let mut walk = Walk::through(
            self.parts.as_slice(),
            self.from as usize + self.len as usize,
        );
        walk.leave_out(self.from as usize);
        walk
    }

    // Where an id stands, or where it goes as it is not there. A range is gone along.
    pub(crate) fn place_of(&self, id: &WriteId) -> Result<usize, usize>
        requires { IsAscending self.now }
        ensures { IsPlace id.now self.now result }
    {
        if self.len < self.all {
            return self.walk().place_of(id);
        }
        id_parts::place_of(self.parts.as_slice(), self.len as usize, id)
    }

    // A block of its own with an id at an index.
    fn apart_with(&self, at: usize, id: WriteId) -> Result<Block, NoMemory>
        requires { at ≤ length self.now }
        ensures { IfOk result (λ b. b ≡ put_at at id self.now) }
    {
        let alloc = self.allocator();
        let Ok(mut ids): Result<Vec<WriteId>, AllocError> = self.walk().copied().collect(alloc)
        else {
            return Err(NoMemory);
        };
        match ids.insert(at, id) {
            Ok(()) => Block::of(alloc, ids.as_slice()),
            Err(_) => Err(NoMemory),
        }
    }

    // Puts an id at an index: in place where nobody else holds the block, else in a block of its own.
    pub(crate) fn grow(&mut self, at: usize, id: WriteId) -> Result<(), NoMemory>
        requires { at ≤ length self.old }
        ensures ok { OnOk result (self.new ≡ take at self.old ++ id ∷ drop at self.old) }
        ensures err { OnErr result (self.new ≡ self.old) }
    {
        let Some(len) = self.len.checked_add(1) else {
            return Err(NoMemory);
        };
        if self.len < self.all {
            *self = self.apart_with(at, id)?;
            return Ok(());
        }
        put(&mut self.parts, self.len as usize, at, id)?;
        self.len = len;
        self.all = len;
        Ok(())
    }
}
