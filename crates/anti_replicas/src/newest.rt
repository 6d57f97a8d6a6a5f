ghost use Rattle.std.specs.Prelude.{◌≡◌, ℕ, ◌<◌, length, List, Some, IfOk};
ghost use Rattle.anti_replicas.specs.inner.Newest.{at_number, key_number, newest_at, last_at, AreNumbered, MakesPlace, Brings};

use anti_ids::{MOST_REGIONS, Name, NoMemory};
use std::alloc::Global;
use std::collections::BTreeMap;

// The place of the last version that was written, behind those of the regions.
pub(crate) const WRITTEN: u32 = MOST_REGIONS as u32;

// The places of the versions of a key.
pub(crate) const PLACES: usize = MOST_REGIONS + 1;

/// The greatest version of each key that is whole at each region, and the greatest that was written, 0 where none is. A key has a number
/// from its first write on, counted from 0, by which the versions are found without its name.
#[derive(Drop)]
pub(crate) struct Newest {
    pub(crate) numbers: BTreeMap<Name, usize>,
    // for each key the versions at the regions, by its number, and behind them the last that was written
    pub(crate) versions: Vec<[u64; PLACES]>,
}

impl Newest {
    // No key has a number.
    pub(crate) fn new(alloc: Global) -> Newest
        ensures newest { (g : ℕ) (k : List ℕ) → newest_at result g k ≡ 0 }
        ensures numbered { AreNumbered result }
    {
        Newest {
            numbers: BTreeMap::new(alloc),
            versions: Vec::new(alloc),
        }
    }

    // The version at the place of the key with the number.
    pub(crate) fn version_at(&self, region: u32, number: usize) -> u64
        requires { region < PLACES }
        ensures { result ≡ at_number self.now region number }
    {
        match self.versions.as_slice().get(number) {
            Some(versions) => versions[region as usize],
            None => 0,
        }
    }

    // The version at the place of the key.
    pub(crate) fn version(&self, region: u32, key: &Name) -> u64
        requires { region < PLACES }
        ensures { result ≡ newest_at self.now region key.now }
    {
        match self.numbers.get(key) {
            Some(number) => self.version_at(region, *number),
            None => 0,
        }
    }

    // The last version of the key that was written.
    pub(crate) fn last(&self, key: &Name) -> u64
        ensures { result ≡ last_at self.now key.now }
    {
        self.version(WRITTEN, key)
    }

    // The number of the key, which gets the next one if it has none yet.
    pub(crate) fn make_place(&mut self, key: Name) -> Result<usize, NoMemory>
        requires { AreNumbered self.old }
        ensures makes { MakesPlace self.old self.new }
        ensures number { IfOk result (λ number. key_number self.new key ≡ Some number) }
    {
        if let Some(number) = self.numbers.get(&key) {
            return Ok(*number);
        }
        let number = self.versions.len();
        if self.versions.push([0; PLACES]).is_err() {
            return Err(NoMemory);
        }
        match self.numbers.insert(key, number) {
            Ok(_) => Ok(number),
            Err(_) => Err(NoMemory),
        }
    }

    // Notes a version of the key with the number: that it is whole at the region, or that it was written. It takes no memory.
    pub(crate) fn bring(&mut self, region: u32, number: usize, version: u64)
        requires region { region < PLACES }
        requires number { number < length self.old.versions.items }
        ensures { Brings self.old self.new region number version }
    {
        let versions = &mut self.versions[number];
        let place = region as usize;
        versions[place] = version.max(versions[place]);
    }
}
