ghost use Rattle.std.specs.Prelude.{◌≡◌, ◌||◌, [], IsTrue, OnOk, Some, is_some, slice_get};
ghost use Rattle.anti_ids.specs.Ids.{has_id, is_id, with_id};
ghost use Rattle.anti_ids.specs.Invariants.{IsAscending};
ghost use Rattle.anti_ids.specs.declared.id.WriteId.{WriteId};
ghost use Rattle.anti_ids.specs.inner.Places.{GoesTo, IsPlace};

use anti_ids::{NoMemory, WriteId};
use std::alloc::Global;
use std::marker::Model;

/// Ids of a store that looks found, each once, in ascending order.
#[derive(Drop)]
pub struct FoundIds {
    ids: Vec<WriteId>,
}

impl Model for FoundIds {
    ghost use Rattle.std.specs.Prelude.{List};
    ghost use Rattle.anti_ids.specs.declared.id.WriteId.{WriteId};
    ghost use Rattle.anti_ids.specs.Invariants.{IsAscending};

    ghost Value = { List WriteId };

    ghost view = { λ found. found.ids.items };

    ghost invariant = { λ found. IsAscending found.ids.items };
}

// Whether an id stands at an index. Names are dear to compare, so the versions are compared first.
fn stands_at(ids: &[WriteId], at: usize, id: &WriteId) -> bool
    ensures { IsTrue result → slice_get ids.now at ≡ Some id.now }
{
    match ids.get(at) {
        Some(there) => there.version == id.version && *there == *id,
        None => false,
    }
}

// Where an id stands, or where it goes as it is not there. It is looked for at some index first.
fn place_of(ids: &[WriteId], at: usize, id: &WriteId) -> Result<usize, usize>
    requires { IsAscending ids.now }
    ensures { IsPlace id.now ids.now result }
{
    if stands_at(ids, at, id) {
        return Ok(at);
    }
    ids.binary_search(id)
}

// Puts an id that is not there to its place, and tells the index behind it.
fn put_at(ids: &mut Vec<WriteId>, at: usize, id: WriteId) -> Result<usize, NoMemory>
    requires ascending { IsAscending ids.old.items }
    requires place { GoesTo id ids.old.items at }
    ensures ascending { IsAscending ids.new.items }
    ensures ok { OnOk result (ids.new.items ≡ with_id id ids.old.items) }
{
    match ids.insert(at, id) {
        Ok(()) => Ok(at + 1),
        Err(_) => Err(NoMemory),
    }
}

impl FoundIds {
    /// No ids. They take no memory.
    pub fn new(alloc: Global) -> FoundIds
        ensures { result ≡ [] }
    {
        FoundIds {
            ids: Vec::new(alloc),
        }
    }

    /// The index behind an id, which is looked for at some index first; `None` where it is not among these.
    pub fn behind(&self, at: usize, id: &WriteId) -> Option<usize>
        ensures { is_some result ≡ has_id id.now self.now }
    {
        match place_of(self.ids.as_slice(), at, id) {
            Ok(place) => Some(place + 1),
            Err(_) => None,
        }
    }

    /// Adds an id, which is looked for at some index first, and tells the index behind it.
    pub fn add(&mut self, at: usize, id: &WriteId) -> Result<usize, NoMemory>
        ensures { (w : WriteId) → OnOk result (has_id w self.new ≡ (is_id w id.now || has_id w self.old)) }
    {
        match place_of(self.ids.as_slice(), at, id) {
            Ok(place) => Ok(place + 1),
            Err(place) => put_at(&mut self.ids, place, *id),
        }
    }
}
