ghost use Rattle.std.specs.Prelude.{◌≡◌, ◌≤◌, ◌∷◌, ◌++◌, [], length, take, drop, OnOk, OnErr, IfOk};

use crate::copies::Copies;
use crate::id::WriteId;
use crate::memory::NoMemory;
use std::alloc::Global;
use std::marker::Model;
use std::sync::Arc;

// The most ids that a part is given.
pub(crate) const MOST_IN_PART: usize = 8;

// A part of a block's ids: a short list, which any number of blocks share.
#[derive(Drop)]
pub(crate) struct IdPart {
    ids: Arc<Vec<WriteId>>,
}

impl Model for IdPart {
    ghost use Rattle.std.specs.Prelude.{List};
    ghost use Rattle.std.specs.Arc.{arc_value};
    ghost use Rattle.anti_ids.specs.declared.id.WriteId.{WriteId};

    ghost Value = { List WriteId };

    ghost view = { λ p. (arc_value p.ids).items };
}

impl IdPart {
    // A part of ids that nobody else holds.
    fn holding(alloc: Global, ids: Vec<WriteId>) -> Result<IdPart, NoMemory>
        ensures { IfOk result (λ p. p ≡ ids.items) }
    {
        match Arc::new(alloc, ids) {
            Ok(ids) => Ok(IdPart { ids }),
            Err(_) => Err(NoMemory),
        }
    }

    // A part of these ids.
    pub(crate) fn of(alloc: Global, ids: &[WriteId]) -> Result<IdPart, NoMemory>
        ensures { IfOk result (λ p. p ≡ ids.now) }
    {
        match Vec::from_slice(alloc, ids) {
            Ok(ids) => IdPart::holding(alloc, ids),
            Err(_) => Err(NoMemory),
        }
    }

    // A part of an id with ids in front of it and behind it.
    fn around(
        alloc: Global,
        front: &[WriteId],
        id: WriteId,
        back: &[WriteId],
    ) -> Result<IdPart, NoMemory>
        ensures { IfOk result (λ p. p ≡ front.now ++ id ∷ back.now) }
    {
        let Some(room) = front.len().checked_add(1) else {
            return Err(NoMemory);
        };
        let mut ids = Vec::new(alloc);
        if ids.reserve(room).is_err()
            || ids.extend_from_slice(front).is_err()
            || ids.push(id).is_err()
            || ids.extend_from_slice(back).is_err()
        {
            return Err(NoMemory);
        }
        IdPart::holding(alloc, ids)
    }

    // The part, and behind it one of these ids.
    fn before(self, alloc: Global, ids: &[WriteId]) -> Result<(IdPart, IdPart), NoMemory>
        ensures { IfOk result (λ two. (two.0 ≡ self) × (two.1 ≡ ids.now)) }
    {
        match IdPart::of(alloc, ids) {
            Ok(behind) => Ok((self, behind)),
            Err(fault) => Err(fault),
        }
    }

    pub(crate) fn ids(&self) -> &[WriteId]
        ensures { result.now ≡ self.now }
    {
        self.ids.as_slice()
    }

    pub(crate) fn len(&self) -> usize
        ensures { result ≡ length self.now }
    {
        self.ids.len()
    }

    // What its memory is of.
    fn allocator(&self) -> Global {
        *self.ids.allocator()
    }

    // Puts an id at an index: in place where no other block holds the part, else in a part of its own.
    pub(crate) fn put(&mut self, at: usize, id: WriteId) -> Result<(), NoMemory>
        requires { at ≤ length self.old }
        ensures ok { OnOk result (self.new ≡ take at self.old ++ id ∷ drop at self.old) }
        ensures err { OnErr result (self.new ≡ self.old) }
    {
        match Arc::get_mut(&mut self.ids) {
            Some(ids) => match ids.insert(at, id) {
                Ok(()) => Ok(()),
                Err(_) => Err(NoMemory),
            },
            None => {
                let alloc = self.allocator();
                let (front, back) = self.ids().split_at(at);
                *self = IdPart::around(alloc, front, id, back)?;
                Ok(())
            }
        }
    }

    // The part cut at an index, with an id behind the front. At its end the front is the part itself.
    pub(crate) fn cut(&self, at: usize, id: WriteId) -> Result<(IdPart, IdPart), NoMemory>
        requires { at ≤ length self.now }
        ensures { IfOk result (λ two. two.0 ++ two.1 ≡ take at self.now ++ id ∷ drop at self.now) }
    {
        let alloc = self.allocator();
        if at == self.len() {
            return self.copy(alloc)?.before(alloc, &[id]);
        }
        let (front, back) = self.ids().split_at(at);
        IdPart::around(alloc, front, id, &[])?.before(alloc, back)
    }
}

impl Copies for IdPart {
    // The part for one more block. It takes no memory.
    fn copy(&self, _alloc: Global) -> Result<IdPart, NoMemory> {
        match Arc::try_clone(&self.ids) {
            Ok(ids) => Ok(IdPart { ids }),
            Err(_) => Err(NoMemory),
        }
    }
}
