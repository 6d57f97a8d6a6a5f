ghost use Rattle.std.specs.Prelude.{◌≡◌, ◌≤◌, List, [], length, replicate, IfOk};
ghost use Rattle.anti_flight.specs.Queued.{queued};
ghost use Rattle.anti_kind.specs.declared.entry.Entry.{Entry};
ghost use Rattle.anti_kind.specs.Store.{Store, is_replica};

use crate::backlog::Backlog;
use crate::kept_write::KeptWrite;
use crate::newest::Newest;
use anti_ids::{MOST_REGIONS, NoMemory};
use anti_kind::StoreKind;
use std::alloc::Global;

/// What all kinds of store share. It stands for a history of a store of any kind.
pub struct Replicas {
    pub(crate) store: u32,
    pub(crate) kind: StoreKind,
    pub(crate) replicas: u8,
    pub(crate) regions: Vec<u32>,
    // the write of version v at the index v - 1
    pub(crate) kept: Vec<KeptWrite>,
    // for each region the groups of versions that are not whole there
    pub(crate) backlogs: Vec<Backlog>,
    // for each region how many versions, from the first on, are whole there
    pub(crate) upto: [u64; MOST_REGIONS],
    pub(crate) newest: Newest,
    // the most ids that are kept beside a write
    pub(crate) longest: u32,
    pub(crate) held: u32,
    pub(crate) owed: u32,
    pub(crate) alloc: Global,
}

// By hand, so that no caller sees the fields.
impl Drop for Replicas {
    fn drop(self) {
        let Replicas {
            store: _,
            kind: _,
            replicas: _,
            regions,
            kept,
            backlogs,
            upto: _,
            newest,
            longest: _,
            held: _,
            owed: _,
            alloc: _,
        } = self;
        drop(regions);
        drop(kept);
        drop(backlogs);
        drop(newest);
    }
}

// The backlogs of all regions, with no groups.
fn no_backlogs(alloc: Global) -> Result<Vec<Backlog>, NoMemory>
    ensures { IfOk result (λ backlogs. backlogs.items ≡ replicate MOST_REGIONS (queued [] 0)) }
{
    let mut backlogs = Vec::new(alloc);
    for _ in 0..MOST_REGIONS {
        if backlogs.push(Backlog::new(alloc)).is_err() {
            return Err(NoMemory);
        }
    }
    Ok(backlogs)
}

impl Replicas {
    ghost use Rattle.anti_replicas.specs.inner.Standing.{Stands};
    ghost use Rattle.anti_replicas.specs.Stores.{At, kind_of, number_of, regions_of, IsOf};

    /// The base of a store of this kind with this number, of which no call was made yet. It has a replica in each of these
    /// regions. It is refused only for want of memory.
    pub fn new(
        alloc: Global,
        kind: StoreKind,
        store: u32,
        regions: &[u32],
    ) -> Result<Replicas, NoMemory>
        requires { length regions.now ≤ MOST_REGIONS }
        ensures kind { IfOk result (λ m. kind_of m ≡ kind) }
        ensures number { IfOk result (λ m. number_of m ≡ store) }
        ensures regions { IfOk result (λ m. regions_of m ≡ regions.now) }
        ensures stands { (s : Store) → IsOf s kind store regions.now → IfOk result (λ m. Stands m s []) }
    {
        let backlogs = no_backlogs(alloc)?;
        match Vec::from_slice(alloc, regions) {
            Ok(regions) => Ok(Replicas {
                store,
                kind,
                replicas: regions.len() as u8,
                regions,
                kept: Vec::new(alloc),
                backlogs,
                upto: [0; MOST_REGIONS],
                newest: Newest::new(alloc),
                longest: 0,
                held: 0,
                owed: 0,
                alloc,
            }),
            Err(_) => Err(NoMemory),
        }
    }

    /// What further memory is of.
    pub fn allocator(&self) -> Global {
        self.alloc
    }

    /// Whether the store has a replica in the region.
    pub fn is_replica(&self, region: u32) -> bool
        ensures { (s : Store) (h : List Entry) → At self.now s h → result ≡ is_replica s region }
    {
        self.regions.as_slice().contains(&region)
    }
}
