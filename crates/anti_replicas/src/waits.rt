ghost use Rattle.std.specs.Prelude.{◌≡◌, ◌&&◌, true, false, List, IfSome};
ghost use Rattle.std.specs.List.{list_all, list_any};
ghost use Rattle.anti_kind.specs.Kinds.{facts_of};
ghost use Rattle.anti_kind.specs.declared.call.Call.TheVariants.{Look};
ghost use Rattle.anti_kind.specs.declared.entry.Entry.{Entry};
ghost use Rattle.anti_kind.specs.Store.{Store, is_written};
ghost use Rattle.anti_kind.specs.Objects.{store};
ghost use Rattle.anti_kind.specs.Waiting.{lacks, waits};

use crate::replicas::Replicas;
use anti_ids::Lineage;
use anti_kind::Awaited;

impl Replicas {
    ghost use Rattle.anti_replicas.specs.Stores.{At, showing_whole};

    // The version of the last id that is not visible at the region. There is none where some id is not that of a write.
    fn last_missing(&self, region: u32, ids: &Lineage) -> Option<u64>
        ensures { (s : Store) (h : List Entry) → At self.now s h
            → IfSome result (λ version. (list_all (is_written h) ids.now
            && list_any (lacks (showing_whole s) h region version) ids.now) ≡ true) }
    {
        let mut last = None;
        for id in ids.iter() {
            let sight = self.sight(region, id);
            if !sight.written {
                return None;
            }
            if !sight.visible {
                last = Some(id.version);
            }
        }
        last
    }

    /// What a look waits for that is not dry, and whose ids were all written, in a store without caches: the version of its last id
    /// that is not visible at the region. The ids of a store ascend by their versions, so it is the greatest that is missing.
    pub fn look_awaits(&self, region: u32, ids: &Lineage, dry: bool) -> Option<Awaited>
        ensures { (s : Store) (h : List Entry) → At self.now s h → (facts_of s.kind).cached ≡ false
            → IfSome result (λ awaited. waits (store (showing_whole s)) h (Look region ids.now dry) awaited ≡ true) }
    {
        if dry {
            return None;
        }
        let version = self.last_missing(region, ids)?;
        Some(Awaited::Version { region, version })
    }
}
