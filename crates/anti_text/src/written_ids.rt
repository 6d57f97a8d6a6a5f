use crate::lists::{empty_lists, item_count};
use anti_ids::{NoMemory, WriteId};
use anti_kind::{Actor, Birth, Entry, Reply};
use std::alloc::Global;

/// The ids that entries wrote, those of one process on one store side by side, as they mostly stand in lineages. It is known where each of
/// them stands.
#[derive(Drop)]
pub struct WrittenIds {
    pub ids: Vec<WriteId>,
    // Where the ids of each store stand, in the order of their versions.
    places: Vec<Vec<usize>>,
}

// The ids in the making: those of one process on one store are a group.
#[derive(Drop)]
struct Groups {
    alloc: Global,
    objects: usize,
    lists: Vec<Vec<WriteId>>,
    // The numbers of the groups, counted from 1: a row for each store and each object, by the places of the births of processes there.
    numbers: Vec<Vec<usize>>,
    // As many places as each store has ids.
    places: Vec<Vec<usize>>,
}

// The number at an index of a row, which gets longer by zeros where it has to.
fn number_at(row: &mut Vec<usize>, index: u32) -> Result<&mut usize, NoMemory> {
    let index = index as usize;
    if index >= row.len() {
        row.resize(index + 1, 0)?;
    }
    Ok(&mut row[index])
}

impl Groups {
    // No ids on so many stores, of processes that are born on so many objects.
    fn new(alloc: Global, stores: usize, objects: usize) -> Result<Groups, NoMemory> {
        let numbers = empty_lists(alloc, stores.saturating_mul(objects))?;
        let places = empty_lists(alloc, stores)?;
        Ok(Groups {
            alloc,
            objects,
            lists: Vec::new(alloc),
            numbers,
            places,
        })
    }

    // Counts a version of a store, where it is the next.
    fn is_next(&mut self, store: u32, version: u64) -> Result<bool, NoMemory> {
        let Some(places) = self.places.get_mut(store as usize) else {
            return Ok(false);
        };
        if version.checked_sub(1) != Some(places.len() as u64) {
            return Ok(false);
        }
        places.push(0)?;
        Ok(true)
    }

    // The number of the group of a process on a store, which may be new; 0 where the process is born on an object beyond those.
    fn group_of(&mut self, store: u32, birth: Birth) -> Result<usize, NoMemory> {
        let row = (store as usize)
            .wrapping_mul(self.objects)
            .wrapping_add(birth.object as usize);
        let Some(numbers) = self.numbers.get_mut(row) else {
            return Ok(0);
        };
        let number = number_at(numbers, birth.place)?;
        if *number == 0 {
            self.lists.push(Vec::new(self.alloc))?;
            *number = self.lists.len();
        }
        Ok(number.wrapping_sub(1))
    }

    // Adds the id that an entry of a process wrote, where it is the next of its store.
    fn add(&mut self, entry: &Entry) -> Result<(), NoMemory> {
        let Reply::Written { key, version, .. } = &entry.reply else {
            return Ok(());
        };
        let Actor::Process(birth) = entry.actor else {
            return Ok(());
        };
        let store = entry.object;
        if !self.is_next(store, *version)? {
            return Ok(());
        }
        let group = self.group_of(store, birth)?;
        let Some(list) = self.lists.get_mut(group) else {
            return Ok(());
        };
        list.push(WriteId {
            store,
            key: *key.get(),
            version: *version,
        })?;
        Ok(())
    }
}

impl WrittenIds {
    // Adds an id at the end, and notes its place.
    fn add(&mut self, id: WriteId) -> Result<(), NoMemory> {
        if let Some(places) = self.places.get_mut(id.store as usize) {
            if let Some(place) = places.get_mut(id.version.wrapping_sub(1) as usize) {
                *place = self.ids.len();
            }
        }
        self.ids.push(id)?;
        Ok(())
    }

    // Adds ids at the end.
    fn add_all(&mut self, ids: &[WriteId]) -> Result<(), NoMemory> {
        for id in ids {
            self.add(*id)?;
        }
        Ok(())
    }

    // The ids of groups.
    fn of_groups(alloc: Global, groups: Groups) -> Result<WrittenIds, NoMemory> {
        let Groups { lists, places, .. } = groups;
        let ids = Vec::with_capacity(alloc, item_count(lists.as_slice()))?;
        let mut written = WrittenIds { ids, places };
        for list in lists {
            written.add_all(list.as_slice())?;
        }
        Ok(written)
    }

    /// The ids that entries wrote on so many stores, by processes that are born on so many objects.
    pub fn of(
        alloc: Global,
        stores: usize,
        objects: usize,
        entries: &[Entry],
    ) -> Result<WrittenIds, NoMemory> {
        let mut groups = Groups::new(alloc, stores, objects)?;
        for entry in entries {
            groups.add(entry)?;
        }
        WrittenIds::of_groups(alloc, groups)
    }

    /// Where an id stands, if it does.
    pub fn place_of(&self, id: &WriteId) -> Option<usize> {
        let places = self.places.get(id.store as usize)?;
        let place = places.get(id.version.wrapping_sub(1) as usize)?;
        Some(*place)
    }
}
