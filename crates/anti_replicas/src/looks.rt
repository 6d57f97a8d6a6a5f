ghost use Rattle.std.specs.Prelude.{◌≡◌, ◌<◌, ◌≤◌, ◌==◌, not, true, false, List, length, filter, Some, IfOk, OnOk, IfSome, IfNone};
ghost use Rattle.std.specs.List.{list_all, list_any};
ghost use Rattle.anti_ids.specs.declared.id.WriteId.{WriteId};
ghost use Rattle.anti_ids.specs.Ids.{with_id};
ghost use Rattle.anti_kind.specs.declared.call.Reply.TheVariants.{Missing};
ghost use Rattle.anti_kind.specs.declared.entry.Entry.{Entry};
ghost use Rattle.anti_kind.specs.Store.{Store, is_visible, is_written, can_look};

use crate::kept_write::KeptWrite;
use crate::replicas::Replicas;
use anti_ids::{Copies, Lineage, LineageRefused, MOST_IDS, NoMemory, WriteId};
use anti_kind::{Handle, Reply};

// Whether an id is that of a write of the store, and whether it is visible at the region.
#[derive(Clone, Copy)]
pub(crate) struct Sight {
    pub(crate) written: bool,
    pub(crate) visible: bool,
}

// Of the ids of a look, whether all are of the store, whether all are visible at the region, and whether some is, and whether all are
// those of writes.
#[derive(Clone, Copy)]
struct Found {
    own: bool,
    visible: bool,
    shown: bool,
    written: bool,
}

/// Adds an id to a lineage that has it or has room for it.
pub fn add_id(ids: &mut Lineage, id: WriteId) -> Result<(), NoMemory>
    requires version { 1 ≤ id.version }
    requires room { length (with_id id ids.old) ≤ MOST_IDS }
    ensures { OnOk result (ids.new ≡ with_id id ids.old) }
{
    match ids.append(id) {
        Ok(_) => Ok(()),
        Err(LineageRefused::NoMemory) => Err(NoMemory),
        Err(LineageRefused::Full) => unreachable!(), // it has room
    }
}

impl Replicas {
    ghost use Rattle.anti_replicas.specs.inner.Newest.{key_number};
    ghost use Rattle.anti_replicas.specs.Stores.{At, showing_whole, number_of};

    // What is kept of the write that the id is of, if it is that of one.
    fn kept_of(&self, id: &WriteId) -> Option<&KeptWrite>
        ensures some { (s : Store) (h : List Entry) → At self.now s h
            → IfSome result (λ kept. (is_written h id.now ≡ true) × (key_number self.now.newest id.now.key ≡ Some kept.now.number)) }
        ensures none { (s : Store) (h : List Entry) → At self.now s h → IfNone result (is_written h id.now ≡ false) }
    {
        match self.kept_at(id.version) {
            Some(kept) => {
                if kept.row.key == id.key {
                    return Some(kept);
                }
                None
            }
            None => None,
        }
    }

    /// Whether the id is that of a write of this store.
    pub fn is_written(&self, id: &WriteId) -> bool
        ensures { (s : Store) (h : List Entry) → At self.now s h → result ≡ is_written h id.now }
    {
        match self.kept_of(id) {
            Some(_) => true,
            None => false,
        }
    }

    // Whether the id is that of a write of this store, and whether the region shows its version of its key, or a later one. Of a write the
    // number of its key is kept, and the map of all keys need not be searched.
    pub(crate) fn sight(&self, region: u32, id: &WriteId) -> Sight
        ensures written { (s : Store) (h : List Entry) → At self.now s h → result.written ≡ is_written h id.now }
        ensures visible { (s : Store) (h : List Entry) → At self.now s h
            → result.visible ≡ is_visible (showing_whole s) h region id.now }
    {
        match self.kept_of(id) {
            Some(kept) => Sight {
                written: true,
                visible: id.version <= self.version_at(region, kept.number),
            },
            None => Sight {
                written: false,
                visible: id.version <= self.shown_version(region, &id.key),
            },
        }
    }

    // The ids that are not visible at the region, one after another.
    fn some_missing(&self, region: u32, ids: &Lineage) -> Result<Lineage, NoMemory>
        ensures { (s : Store) (h : List Entry) → At self.now s h
            → IfOk result (λ l. l ≡ filter (λ id. not (is_visible (showing_whole s) h region id)) ids.now) }
    {
        let mut found = Lineage::root(self.alloc);
        for id in ids.iter() {
            if !self.sight(region, id).visible {
                add_id(&mut found, *id)?;
            }
        }
        Ok(found)
    }

    // The same, by whether all are visible, and whether some is.
    fn missing_of(&self, found: Found, region: u32, ids: &Lineage) -> Result<Lineage, NoMemory>
        ensures { (s : Store) (h : List Entry) → At self.now s h
            → found.visible ≡ list_all (is_visible (showing_whole s) h region) ids.now
            → found.shown ≡ list_any (is_visible (showing_whole s) h region) ids.now
            → IfOk result (λ l. l ≡ filter (λ id. not (is_visible (showing_whole s) h region id)) ids.now) }
    {
        if found.visible {
            return Ok(Lineage::root(self.alloc));
        }
        if found.shown {
            return self.some_missing(region, ids);
        }
        let all = ids.copy(self.alloc)?;
        Ok(all)
    }

    /// Whether each id is that of a write of this store.
    pub fn are_written(&self, ids: &Lineage) -> bool
        ensures { (s : Store) (h : List Entry) → At self.now s h → result ≡ list_all (is_written h) ids.now }
    {
        for id in ids.iter() {
            if !self.is_written(id) {
                return false;
            }
        }
        true
    }

    /// The ids that are not visible at the region. Where none is visible, as before anything is shipped, they are all, and take no memory.
    pub fn missing(&self, region: u32, ids: &Lineage) -> Result<Lineage, NoMemory>
        ensures { (s : Store) (h : List Entry) → At self.now s h
            → IfOk result (λ l. l ≡ filter (λ id. not (is_visible (showing_whole s) h region id)) ids.now) }
    {
        self.missing_of(self.found(region, ids), region, ids)
    }

    /// The ids that nobody wrote.
    pub fn unwritten(&self, ids: &Lineage) -> Result<Lineage, NoMemory>
        ensures { (s : Store) (h : List Entry) → At self.now s h
            → IfOk result (λ l. l ≡ filter (λ id. not (is_written h id)) ids.now) }
    {
        let mut found = Lineage::root(self.alloc);
        for id in ids.iter() {
            if !self.is_written(id) {
                add_id(&mut found, *id)?;
            }
        }
        Ok(found)
    }

    // The ids that nobody wrote, by whether somebody wrote each.
    fn unwritten_of(&self, found: Found, ids: &Lineage) -> Result<Lineage, NoMemory>
        ensures { (s : Store) (h : List Entry) → At self.now s h
            → found.written ≡ list_all (is_written h) ids.now
            → IfOk result (λ l. l ≡ filter (λ id. not (is_written h id)) ids.now) }
    {
        if found.written {
            return Ok(Lineage::root(self.alloc));
        }
        self.unwritten(ids)
    }

    // What a look at the region finds of its ids. They are gone over once, since most looks that are asked for wait.
    fn found(&self, region: u32, ids: &Lineage) -> Found
        ensures own { result.own ≡ list_all (λ id. id.store == number_of self.now) ids.now }
        ensures visible { (s : Store) (h : List Entry) → At self.now s h
            → result.visible ≡ list_all (is_visible (showing_whole s) h region) ids.now }
        ensures shown { (s : Store) (h : List Entry) → At self.now s h
            → result.shown ≡ list_any (is_visible (showing_whole s) h region) ids.now }
        ensures written { (s : Store) (h : List Entry) → At self.now s h
            → result.written ≡ list_all (is_written h) ids.now }
    {
        let mut found = Found {
            own: true,
            visible: true,
            shown: false,
            written: true,
        };
        for id in ids.iter() {
            let sight = self.sight(region, id);
            found.own = found.own && id.store == self.store;
            found.visible = found.visible && sight.visible;
            found.shown = found.shown || sight.visible;
            found.written = found.written && sight.written;
        }
        found
    }

    /// Whether all ids are of this store.
    pub fn are_own(&self, ids: &Lineage) -> bool
        ensures { result ≡ list_all (λ id. id.store == number_of self.now) ids.now }
    {
        for id in ids.iter() {
            if id.store != self.store {
                return false;
            }
        }
        true
    }

    /// Whether a look is answered: all ids are of this store, and it is dry, or nothing is missing, or something is unwritten.
    pub fn can_look(&self, region: u32, ids: &Lineage, dry: bool) -> bool
        ensures { (s : Store) (h : List Entry) → At self.now s h
            → result ≡ can_look (showing_whole s) h region ids.now dry }
    {
        if !self.is_replica(region) {
            return false;
        }
        if dry {
            return self.are_own(ids);
        }
        let found = self.found(region, ids);
        found.own && (found.visible || !found.written)
    }

    /// The reply to a look: the ids that are not visible at the region, and those that nobody wrote.
    pub fn look(&self, region: u32, ids: &Lineage) -> Result<Reply, NoMemory>
        ensures { (s : Store) (h : List Entry) → At self.now s h
            → IfOk result (λ reply. reply ≡ Missing (filter (λ id. not (is_visible (showing_whole s) h region id)) ids.now)
            (filter (λ id. not (is_written h id)) ids.now)) }
    {
        let found = self.found(region, ids);
        let missing = Handle::new(self.alloc, self.missing_of(found, region, ids)?)?;
        let unwritten = Handle::new(self.alloc, self.unwritten_of(found, ids)?)?;
        Ok(Reply::Missing { missing, unwritten })
    }
}
