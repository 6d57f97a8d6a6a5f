ghost use Rattle.std.specs.Prelude.{◌≡◌, ◌+◌, ◌^◌, ◌<◌, ◌≤◌, not, ◌||◌, false, List, [], ◌∷◌, ◌++◌, length, map, slice_index_or};
ghost use Rattle.std.specs.List.{prefix_len};
ghost use Rattle.anti_kind.specs.Kinds.{facts_of};
ghost use Rattle.anti_kind.specs.declared.call.Call.TheVariants.{Ship};
ghost use Rattle.anti_kind.specs.declared.entry.Entry.{Entry};
ghost use Rattle.anti_kind.specs.Stored.{rows, row_of, is_shipped};
ghost use Rattle.anti_kind.specs.Shipments.{upto_of, next_shipment};
ghost use Rattle.anti_kind.specs.Store.{Store, has_part, is_next, can_ship};
ghost use Rattle.anti_kind.specs.Objects.{store, Follows};

use crate::backlog::IN_GROUP;
use crate::kept_write::MOST_PARTS;
use crate::replicas::Replicas;
use anti_ids::MOST_REGIONS;

impl Replicas {
    ghost use Rattle.anti_replicas.specs.inner.Backlogs.{group_whole};
    ghost use Rattle.anti_replicas.specs.inner.Marks.{has_all};
    ghost use Rattle.anti_replicas.specs.inner.Standing.{Stands, Shippable, Marks, Leaves, Reaches};
    ghost use Rattle.anti_replicas.specs.Stores.{At, MayShip, kind_of, number_of, regions_of};

    /// Whether the part of the version was brought to the region.
    pub fn was_shipped(&self, region: u32, version: u64, part: u32) -> bool
        ensures { (s : Store) (h : List Entry) → At self.now s h
            → result ≡ is_shipped h region version part }
    {
        if region as usize >= MOST_REGIONS {
            return false;
        }
        if part == 0 {
            return false;
        }
        if part as usize > MOST_PARTS {
            return false;
        }
        match self.kept_at(version) {
            Some(kept) => kept.came(region, part),
            None => false,
        }
    }

    // Whether the version was written and has the part.
    fn has_part(&self, version: u64, part: u32) -> bool
        ensures { (s : Store) (h : List Entry) → At self.now s h
            → result ≡ has_part s.kind (row_of h version) part }
    {
        if part == 0 {
            return false;
        }
        match self.kept_at(version) {
            Some(kept) => part <= u32::from(kept.parts),
            None => false,
        }
    }

    // Whether the version may come to the region now: to a store that is ordered they come one behind another.
    fn is_next(&self, region: u32, version: u64) -> bool
        ensures { (s : Store) (h : List Entry) → At self.now s h
            → version ≤ length (rows h)
            → result ≡ (not (facts_of s.kind).ordered || is_next h region version) }
    {
        if !self.kind.facts().ordered {
            return true;
        }
        version.saturating_sub(1) <= self.upto(region)
    }

    /// Whether the part of the version can be brought to the region: it is there, was not brought before, and is next.
    pub fn can_ship(&self, region: u32, version: u64, part: u32) -> bool
        ensures { (s : Store) (h : List Entry) → At self.now s h
            → result ≡ can_ship s h region version part }
    {
        if !self.is_replica(region) {
            return false;
        }
        if !self.has_part(version, part) {
            return false;
        }
        if self.was_shipped(region, version, part) {
            return false;
        }
        self.is_next(region, version)
    }

    // How many versions, from the first on, are whole at the region, where so many are known to be.
    fn whole_from(&self, region: u32, known: usize) -> u64
        ensures { known ≤ prefix_len (has_all region) self.now.kept.items → result ≡ prefix_len (has_all region) self.now.kept.items }
    {
        for at in known..self.kept.len() {
            if !self.kept[at].is_whole(region) {
                return at as u64;
            }
        }
        self.kept.len() as u64
    }

    /// How many versions, from the first on, are whole at the region.
    pub fn upto(&self, region: u32) -> u64
        ensures { (s : Store) (h : List Entry) → At self.now s h
            → result ≡ upto_of s.kind h region }
    {
        match self.upto.get(region as usize) {
            Some(upto) => *upto,
            None => 0,
        }
    }

    /// The next shipment to the region, its version and its part: the first part that is missing of the first version that is not whole
    /// there.
    pub fn next_ship(&self, region: u32) -> Option<(u64, u32)>
        ensures { (s : Store) (h : List Entry) → At self.now s h
            → result ≡ next_shipment s h region }
    {
        if !self.is_replica(region) {
            return None;
        }
        let kept = self.kept.as_slice().get(self.upto(region) as usize)?;
        let part = kept.first_missing(region)?;
        Some((kept.row.version, part))
    }

    /// Brings the part of the version to the region. It takes no memory.
    pub fn ship(&mut self, region: u32, version: u64, part: u32)
        requires { MayShip self.old region version part }
        ensures stands { (s : Store) (h : List Entry) (e : Entry) → At self.old s h
            → Follows (store s) h e → e.call ≡ Ship region version part
            → Stands self.new s (h ++ e ∷ []) }
        ensures kind { kind_of self.new ≡ kind_of self.old }
        ensures number { number_of self.new ≡ number_of self.old }
        ensures regions { regions_of self.new ≡ regions_of self.old }
    {
        self.mark(region, version, part);
    }

    // Whether the version at the index is kept, and whole at the region.
    fn is_whole_at(&self, region: u32, index: usize) -> bool
        ensures { result ≡ slice_index_or (map (has_all region) self.now.kept.items) index false }
    {
        match self.kept.as_slice().get(index) {
            Some(kept) => kept.is_whole(region),
            None => false,
        }
    }

    // Whether each version of the group at a place is whole at the region. It looks from the last of them, which mostly comes last.
    fn is_group_whole(&self, region: u32, group: usize) -> bool
        requires { group < 2 ^ 60 }
        ensures { result ≡ group_whole (map (has_all region) self.now.kept.items) group }
    {
        let first = group * IN_GROUP as usize;
        let behind = first + IN_GROUP as usize;
        for passed in 0..IN_GROUP as usize {
            if !self.is_whole_at(region, behind - 1 - passed) {
                return false;
            }
        }
        true
    }

    // Takes the group of the version out of the region's backlog, if it is whole there.
    fn leave(&mut self, region: u32, version: u64)
        requires region { region < length self.old.backlogs.items }
        requires version { (1 ≤ version) × (version ≤ length self.old.kept.items) }
        ensures only { self.new ≡ record self.old { backlogs = self.new.backlogs } }
        ensures count { length self.new.backlogs.items ≡ length self.old.backlogs.items }
        ensures leaves { Leaves self.old self.new region version }
    {
        let group = (version - 1) / IN_GROUP;
        if self.is_group_whole(region, group as usize) {
            self.backlogs[region as usize].remove(group + 1);
        }
    }

    // Moves on how far the region has everything, where the version, which is whole there now, is the first that it lacked: past the
    // groups that it has, and into the first that it has not.
    fn reach(&mut self, region: u32, version: u64)
        requires region { (region < MOST_REGIONS) × (region < length self.old.backlogs.items) }
        requires first { 1 ≤ version }
        ensures only { self.new ≡ record self.old { upto = self.new.upto } }
        ensures reaches { Reaches self.old.upto self.new.upto self.new.kept.items self.new.backlogs.items region version }
    {
        let place = region as usize;
        if version - 1 != self.upto[place] {
            return;
        }
        let passed = self.backlogs[place].passed().saturating_mul(IN_GROUP);
        self.upto[place] = self.whole_from(region, passed.max(version) as usize);
    }

    // Notes what the region has and lacks, now that the version is whole there.
    fn settle(&mut self, region: u32, version: u64)
        requires region { (region < MOST_REGIONS) × (length self.old.backlogs.items ≡ MOST_REGIONS) }
        requires version { (1 ≤ version) × (version ≤ length self.old.kept.items) }
        ensures only { self.new ≡ record self.old { backlogs = self.new.backlogs; upto = self.new.upto } }
        ensures leaves { Leaves self.old self.new region version }
        ensures reaches { Reaches self.old.upto self.new.upto self.new.kept.items self.new.backlogs.items region version }
    {
        self.leave(region, version);
        self.reach(region, version);
    }

    // Marks the part at the region. Once the version is whole there, the region shows it, unless it shows a later one. Its shipment is
    // owed no more.
    fn mark(&mut self, region: u32, version: u64, part: u32)
        requires { Shippable self.old region version part }
        ensures { Marks self.old self.new region version part }
    {
        let kept = &mut self.kept[(version - 1) as usize];
        kept.mark(region, part);
        if kept.is_whole(region) {
            self.newest.bring(region, kept.number, version);
            self.settle(region, version);
        }
        self.held += 1;
        self.owed -= 1;
    }
}
