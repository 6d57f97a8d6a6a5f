//! The caches: for each region the keys that were read there last, the most recently used first, with the version of each that is shown.
ghost use Rattle.std.specs.Prelude.{◌≡◌, ◌≤◌, ◌∷◌, [], List, None, bytes_eq, take, replicate, IfOk, OnOk, OnErr};
ghost use Rattle.std.specs.Map.{lookup, set_value};
ghost use Rattle.std.specs.NonZero.{non_zero_usize_get};
ghost use Rattle.anti_kind.specs.declared.entry.Entry.{Entry};
ghost use Rattle.anti_kind.specs.Caches.{cached_shows};
ghost use Rattle.lru.specs.LruCache.{lru_cache};

use crate::cached_store::CachedKv;
use anti_ids::{MOST_REGIONS, Name, NoMemory};
use lru::LruCache;
use std::alloc::Global;
use std::num::NonZeroUsize;

pub(crate) type Cache = LruCache<Name, u64>;

// A cache for each region, with no keys and so much room.
pub(crate) fn new_caches(alloc: Global, room: u32) -> Result<Vec<Cache>, NoMemory>
    requires { 1 ≤ room }
    ensures { IfOk result (λ caches. caches.items ≡ replicate MOST_REGIONS (lru_cache [] room)) }
{
    let Some(cap) = NonZeroUsize::new(room as usize) else {
        unreachable!() // there is room
    };
    let mut caches = Vec::new(alloc);
    for _ in 0..MOST_REGIONS {
        let cache = LruCache::sparse(alloc, cap)?;
        if caches.push(cache).is_err() {
            return Err(NoMemory);
        }
    }
    Ok(caches)
}

// Puts a key that the cache lacks to its front. Where the cache is full its last key falls out.
pub(crate) fn put(cache: &mut Cache, key: Name, version: u64) -> Result<(), NoMemory>
    requires { lookup (bytes_eq key) cache.old.entries ≡ None }
    ensures ok { OnOk result (cache.new ≡ lru_cache (take cache.old.cap ((key, version) ∷ cache.old.entries)) cache.old.cap) }
    ensures err { OnErr result (cache.new ≡ cache.old) }
{
    let _valid = cache.len(); // so it has room for one key at least
    match cache.put(key, version) {
        Ok(_) => Ok(()),
        Err(_) => Err(NoMemory),
    }
}

// Sets the version of a key where the cache has it. The key keeps its place.
pub(crate) fn set(cache: &mut Cache, key: &Name, version: u64)
    ensures { cache.new ≡ lru_cache (set_value (bytes_eq key.now) cache.old.entries version) cache.old.cap }
{
    if let Some(shown) = cache.peek_mut(key) {
        *shown = version;
    }
}

impl CachedKv {
    ghost use Rattle.anti_kind.specs.declared.store_kind.StoreKind.TheVariants.{Cached};
    ghost use Rattle.anti_kind.specs.Caches.{cache};
    ghost use Rattle.anti_cache.specs.CachedStates.{At};

    // The version of the key that the region's cache has.
    fn cached(&self, region: u32, key: &Name) -> Option<u64>
        ensures { (h : List Entry) → At self.now h
            → result ≡ lookup (bytes_eq key.now) (cache Cached self.now.room h region) }
    {
        match self.caches.as_slice().get(region as usize) {
            Some(cache) => cache.peek(key).copied(),
            None => None,
        }
    }

    // The version of the key that the region shows: the one in its cache, else the greatest that is whole there, 0 where none is.
    pub(crate) fn shown(&self, region: u32, key: &Name) -> u64
        ensures { (h : List Entry) → At self.now h → result ≡ cached_shows Cached self.now.room h region key.now }
    {
        match self.cached(region, key) {
            Some(version) => version,
            None => self.base.shown_version(region, key),
        }
    }
}
