ghost use Rattle.std.specs.Prelude.{◌≡◌, not, List, filter, IfOk};
ghost use Rattle.std.specs.List.{list_all};
ghost use Rattle.anti_kind.specs.declared.call.Reply.TheVariants.{Missing};
ghost use Rattle.anti_kind.specs.declared.entry.Entry.{Entry};
ghost use Rattle.anti_kind.specs.Store.{is_visible, is_written, can_look};

use crate::cached_store::CachedKv;
use anti_ids::{Lineage, NoMemory, WriteId};
use anti_kind::{Handle, Reply};
use anti_replicas::add_id;

// Looks, by what the regions show through their caches.
impl CachedKv {
    ghost use Rattle.anti_cache.specs.CachedStates.{At, its_store};

    // Whether the region shows the version of the id, or a later one.
    fn is_visible(&self, region: u32, id: &WriteId) -> bool
        ensures { (h : List Entry) → At self.now h → result ≡ is_visible (its_store self.now) h region id.now }
    {
        id.version <= self.shown(region, &id.key)
    }

    // Whether the region shows each id.
    fn are_visible(&self, region: u32, ids: &Lineage) -> bool
        ensures { (h : List Entry) → At self.now h → result ≡ list_all (is_visible (its_store self.now) h region) ids.now }
    {
        for id in ids.iter() {
            if !self.is_visible(region, id) {
                return false;
            }
        }
        true
    }

    // The ids that are not visible at the region.
    fn missing(&self, region: u32, ids: &Lineage) -> Result<Lineage, NoMemory>
        ensures { (h : List Entry) → At self.now h
            → IfOk result (λ l. l ≡ filter (λ id. not (is_visible (its_store self.now) h region id)) ids.now) }
    {
        let mut found = Lineage::root(self.base.allocator());
        for id in ids.iter() {
            if !self.is_visible(region, id) {
                add_id(&mut found, *id)?;
            }
        }
        Ok(found)
    }

    // Whether a look is answered: all ids are of this store, and it is dry, or nothing is missing, or something is unwritten.
    pub(crate) fn can_look(&self, region: u32, ids: &Lineage, dry: bool) -> bool
        ensures { (h : List Entry) → At self.now h → result ≡ can_look (its_store self.now) h region ids.now dry }
    {
        if !self.base.is_replica(region) {
            return false;
        }
        if !self.base.are_own(ids) {
            return false;
        }
        if dry {
            return true;
        }
        if self.are_visible(region, ids) {
            return true;
        }
        !self.base.are_written(ids)
    }

    // The reply to a look: the ids that are not visible at the region, and those that nobody wrote.
    pub(crate) fn look(&self, region: u32, ids: &Lineage) -> Result<Reply, NoMemory>
        ensures { (h : List Entry) → At self.now h
            → IfOk result (λ reply. reply ≡ Missing (filter (λ id. not (is_visible (its_store self.now) h region id)) ids.now)
            (filter (λ id. not (is_written h id)) ids.now)) }
    {
        let missing = Handle::new(self.base.allocator(), self.missing(region, ids)?)?;
        let unwritten = Handle::new(self.base.allocator(), self.base.unwritten(ids)?)?;
        Ok(Reply::Missing { missing, unwritten })
    }
}
