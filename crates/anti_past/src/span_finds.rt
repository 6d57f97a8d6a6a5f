ghost use Rattle.std.specs.Prelude.{◌≡◌, ◌||◌, ◌<◌, false, is_some, length, OnOk};
ghost use Rattle.anti_ids.specs.Ids.{has_id, is_id};
ghost use Rattle.anti_ids.specs.declared.id.WriteId.{WriteId};
ghost use Rattle.anti_past.specs.inner.Found.{has_in};

use crate::found_ids::FoundIds;
use anti_ids::{Lineage, NoMemory, WriteId};
use std::alloc::Global;

/// What the looks of a span found: the ids of each store, by its number. Ids that stand one behind another are looked for in step.
pub struct SpanFinds {
    pub(crate) stores: Vec<FoundIds>,
}

// By hand, so that no caller sees the fields.
impl Drop for SpanFinds {
    fn drop(self) {
        let SpanFinds { stores } = self;
        drop(stores);
    }
}

impl SpanFinds {
    /// Nothing was found. It takes no memory.
    pub fn new(alloc: Global) -> SpanFinds
        ensures { (w : WriteId) → has_in result w ≡ false }
    {
        SpanFinds {
            stores: Vec::new(alloc),
        }
    }

    /// The index behind an id among the found ones of its store, where it is looked for at some index first; `None` where it was not found.
    pub fn behind(&self, at: usize, id: &WriteId) -> Option<usize>
        ensures { is_some result ≡ has_in self.now id.now }
    {
        match self.stores.get(id.store as usize) {
            Some(ids) => ids.behind(at, id),
            None => None,
        }
    }

    // Makes room for the ids of the store of a number.
    fn reach(&mut self, alloc: Global, store: usize) -> Result<(), NoMemory>
        ensures long { OnOk result (store < length self.new.stores.items) }
        ensures same { (w : WriteId) → OnOk result (has_in self.new w ≡ has_in self.old w) }
    {
        while self.stores.len() <= store {
            match self.stores.push(FoundIds::new(alloc)) {
                Ok(()) => {}
                Err(_) => return Err(NoMemory),
            }
        }
        Ok(())
    }

    // Adds an id, which is looked for at some index first, and tells the index behind it.
    fn add_id(&mut self, alloc: Global, at: usize, id: &WriteId) -> Result<usize, NoMemory>
        ensures { (w : WriteId) → OnOk result (has_in self.new w ≡ (has_in self.old w || is_id w id.now)) }
    {
        let store = id.store as usize;
        self.reach(alloc, store)?;
        let ids = &mut self.stores[store];
        ids.add(at, id)
    }

    /// Adds the ids of a lineage.
    pub fn add_all(&mut self, alloc: Global, ids: &Lineage) -> Result<(), NoMemory>
        ensures { (w : WriteId) → OnOk result (has_in self.new w ≡ (has_in self.old w || has_id w ids.now)) }
    {
        let mut at = 0;
        for id in ids.iter() {
            at = self.add_id(alloc, at, id)?;
        }
        Ok(())
    }
}
