ghost use Rattle.std.specs.Prelude.{◌≡◌, List, [], IfOk};
ghost use Rattle.anti_kind.specs.Caches.{stale};
ghost use Rattle.anti_kind.specs.declared.entry.Entry.{Entry};
ghost use Rattle.anti_kind.specs.Starts.{IsStart};

use crate::caches::{Cache, new_caches};
use anti_ids::NoMemory;
use anti_kind::{Awaited, Call, Kind, Machine, Reply, StoreKind};
use anti_replicas::Replicas;
use std::alloc::Global;

/// A store of the kind cached: keys with values. A value has one part. Each region reads through a cache of so many keys: a read brings its
/// key there, with the greatest version of it that came to the region, and from then on the region shows that version, until the key falls
/// out of the cache, or a version of it comes again.
pub struct CachedKv {
    pub(crate) base: Replicas,
    // how many keys a cache holds
    pub(crate) room: u32,
    // that of each region
    pub(crate) caches: Vec<Cache>,
}

// By hand, so that no caller sees the fields.
impl Drop for CachedKv {
    fn drop(self) {
        let CachedKv {
            base,
            room: _,
            caches,
        } = self;
        drop(base);
        drop(caches);
    }
}

impl CachedKv {
    ghost use Rattle.anti_cache.specs.CachedStates.{At, CachedStands, cached_start, its_start};

    /// A store with this number, of which no call was made yet. It has a replica in each of these regions: one to eight, all
    /// different, each below 8; and in each a cache of `room` keys, from 1 to 64. It is refused only for want of memory.
    pub fn new(alloc: Global, store: u32, regions: &[u32], room: u32) -> Result<CachedKv, NoMemory>
        requires { IsStart (cached_start store regions.now room) }
        ensures start { IfOk result (λ m. its_start m ≡ cached_start store regions.now room) }
        ensures stands { IfOk result (λ m. CachedStands m []) }
    {
        let base = Replicas::new(alloc, StoreKind::Cached, store, regions)?;
        let caches = new_caches(alloc, room)?;
        Ok(CachedKv { base, room, caches })
    }

    /// The version that is whole of the first key in the region's cache that is behind. Once it comes again there, that key is behind no
    /// more. There is none where no key of the cache is behind. It takes no memory.
    pub fn stale(&self, region: u32) -> Option<u64>
        ensures { (h : List Entry) → At self.now h → result ≡ stale (its_start self.now) h region }
    {
        let cache = self.caches.as_slice().get(region as usize)?;
        for (key, version) in cache.iter() {
            let whole = self.base.shown_version(region, key);
            if *version < whole {
                return Some(whole);
            }
        }
        None
    }
}

/// The table of a cached store: `Write`, `Ship`, `Again`, `Look` and `Read`. No other call is ever ready.
impl Machine for CachedKv {
    ghost use Rattle.anti_cache.specs.CachedStates.{its_start, CachedStands};

    ghost start = { its_start };

    ghost Stands = { CachedStands };

    fn ready(&self, c: &Call) -> bool {
        match c {
            Call::Write { .. } => true,
            Call::Ship {
                region,
                version,
                part,
            } => self.base.can_ship(*region, *version, *part),
            Call::Again {
                region,
                version,
                part,
            } => self.base.was_shipped(*region, *version, *part),
            Call::Look { region, ids, dry } => self.can_look(*region, ids.get(), *dry),
            Call::Read { region, .. } => self.base.is_replica(*region),
            _ => false,
        }
    }

    fn need(&self, c: &Call) -> u32 {
        self.base.need(c)
    }

    fn held(&self) -> u32 {
        self.base.held()
    }

    fn owed(&self) -> u32 {
        self.base.owed()
    }

    fn upto(&self, region: u32) -> u64 {
        self.base.upto(region)
    }

    fn next_ship(&self, region: u32) -> Option<(u64, u32)> {
        self.base.next_ship(region)
    }

    // A look may come to find what it needs by a shipment, by a read, or by what comes again, so it waits for none of them alone.
    fn awaits(&self, _c: &Call) -> Option<Awaited> {
        None
    }

    fn due(&self, c: &Call) -> Result<Reply, NoMemory> {
        match c {
            Call::Write { key, lineage, .. } => self.base.written(key, lineage.get()),
            Call::Ship { .. } | Call::Again { .. } => Ok(Reply::Moved),
            Call::Look { region, ids, .. } => self.look(*region, ids.get()),
            Call::Read { region, key } => self.base.read_version(self.shown(*region, key), key),
            _ => unreachable!(), // no other call is ready, by the table
        }
    }

    fn apply(&mut self, c: &Call, reply: &Reply) -> Result<(), NoMemory> {
        match c {
            Call::Write { value, lineage, .. } => self.write(value, lineage.get(), reply),
            Call::Read { region, key } => self.read(*region, key),
            Call::Again {
                region,
                version,
                ..
            } => {
                self.again(*region, *version);
                Ok(())
            }
            Call::Ship { .. } | Call::Look { .. } => {
                self.pass(c);
                Ok(())
            }
            _ => unreachable!(), // no other call is ready, by the table
        }
    }
}

/// A cached store keeps the laws of its kind.
impl Kind for CachedKv {
    ghost use Rattle.anti_cache.specs.CachedLaws.{cached_keeps};

    ghost keeps = { cached_keeps };
}
