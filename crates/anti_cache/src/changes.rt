ghost use Rattle.std.specs.Prelude.{◌≡◌, ℕ, ◌<◌, List, [], ◌∷◌, ◌++◌, length, OnOk, OnErr};
ghost use Rattle.anti_kind.specs.declared.call.Call.TheVariants.{Again, Read, Write};
ghost use Rattle.anti_kind.specs.declared.entry.Entry.{Entry};
ghost use Rattle.anti_kind.specs.Caches.{read_through, refreshed};
ghost use Rattle.anti_kind.specs.Machines.{MayMake};
ghost use Rattle.anti_kind.specs.Objects.{Follows};
ghost use Rattle.anti_kind.specs.Stored.{row_of, shows_of};

use crate::cached_store::CachedKv;
use crate::caches::{put, set};
use anti_ids::{Lineage, Name, NoMemory, Value};
use anti_kind::{Call, Reply};

// What each call changes.
impl CachedKv {
    ghost use Rattle.anti_kind.specs.declared.store_kind.StoreKind.TheVariants.{Cached};
    ghost use Rattle.anti_kind.specs.Caches.{cache};
    ghost use Rattle.anti_cache.specs.CachedStates.{At, CachedStands, MayCome, MayWrite, its_start};
    ghost use Rattle.anti_cache.specs.inner.Changes.{IsQuiet, Turns};

    // Writes a value, which comes to no cache before it is read there.
    pub(crate) fn write(
        &mut self,
        value: &Value,
        lineage: &Lineage,
        reply: &Reply,
    ) -> Result<(), NoMemory>
        requires { MayWrite self.old value.now lineage.now reply.now }
        ensures stands { (h : List Entry) (e : Entry) (key : List ℕ) → At self.old h
            → Follows (its_start self.old) h e → e.call ≡ Write key value.now lineage.now → e.reply ≡ reply.now
            → OnOk result (CachedStands self.new (h ++ e ∷ [])) }
        ensures err { (h : List Entry) → CachedStands self.old h → OnErr result (CachedStands self.new h) }
        ensures start { its_start self.new ≡ its_start self.old }
    {
        self.base.write(value, lineage, reply)
    }

    // Brings the key to the front of the region's cache. One that the cache lacks comes there with the version that is whole, if one is.
    fn read_through(&mut self, region: u32, key: &Name) -> Result<(), NoMemory>
        requires { region < length self.old.caches.items }
        ensures only { self.new ≡ record self.old { caches = self.new.caches } }
        ensures ok { (h : List Entry) → At self.old h → OnOk result (Turns self.old self.new region
            (read_through self.old.room key.now (shows_of Cached h region key.now) (cache Cached self.old.room h region))) }
        ensures err { OnErr result (self.new.caches.items ≡ self.old.caches.items) }
    {
        let cache = &mut self.caches[region as usize];
        if cache.promote(key) {
            return Ok(());
        }
        let whole = self.base.shown_version(region, key);
        if whole == 0 {
            return Ok(());
        }
        put(cache, *key, whole)
    }

    // Sets the version of the key that came again to the one that is whole, where the region's cache has the key.
    fn refresh(&mut self, region: u32, version: u64)
        requires { region < length self.old.caches.items }
        ensures only { self.new ≡ record self.old { caches = self.new.caches } }
        ensures turns { (h : List Entry) → At self.old h → Turns self.old self.new region
            (refreshed Cached h region (row_of h version) (cache Cached self.old.room h region)) }
    {
        if let Some(row) = self.base.row_at(version) {
            let whole = self.base.shown_version(region, &row.key);
            set(&mut self.caches[region as usize], &row.key, whole);
        }
    }

    // Makes a read of the key. Where there is no memory for its place in the cache, all is as it was.
    pub(crate) fn read(&mut self, region: u32, key: &Name) -> Result<(), NoMemory>
        requires { MayMake (its_start self.old) (CachedStands self.old) (Read region key.now) }
        ensures stands { (h : List Entry) (e : Entry) → At self.old h
            → Follows (its_start self.old) h e → e.call ≡ Read region key.now
            → OnOk result (CachedStands self.new (h ++ e ∷ [])) }
        ensures err { (h : List Entry) → CachedStands self.old h → OnErr result (CachedStands self.new h) }
        ensures start { its_start self.new ≡ its_start self.old }
    {
        self.read_through(region, key)?;
        self.base.note(1);
        Ok(())
    }

    // Brings a part that came to the region before once more. It takes no memory.
    pub(crate) fn again(&mut self, region: u32, version: u64)
        requires { MayCome self.old region version }
        ensures stands { (h : List Entry) (e : Entry) (part : ℕ) → At self.old h
            → Follows (its_start self.old) h e → e.call ≡ Again region version part
            → CachedStands self.new (h ++ e ∷ []) }
        ensures start { its_start self.new ≡ its_start self.old }
    {
        self.refresh(region, version);
        self.base.note(1);
    }

    // Makes a call that changes no cache, and writes nothing. It takes no memory.
    pub(crate) fn pass(&mut self, c: &Call)
        requires may { MayMake (its_start self.old) (CachedStands self.old) c.now }
        requires quiet { IsQuiet c.now }
        ensures stands { (h : List Entry) (e : Entry) → At self.old h
            → Follows (its_start self.old) h e → e.call ≡ c.now
            → CachedStands self.new (h ++ e ∷ []) }
        ensures start { its_start self.new ≡ its_start self.old }
    {
        self.base.pass(c);
    }
}
