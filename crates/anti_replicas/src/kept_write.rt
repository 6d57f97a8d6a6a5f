ghost use Rattle.std.specs.Prelude.{◌≡◌, ◌<◌, ◌≤◌};
ghost use Rattle.anti_replicas.specs.inner.Marks.{mask_at, came, first_missing, has_all, marked};

use anti_ids::{LONGEST_VALUE, MOST_REGIONS, PART_BYTES};
use anti_kind::Row;

/// The most parts of a value.
pub(crate) const MOST_PARTS: usize = LONGEST_VALUE / PART_BYTES;

/// A write that the store keeps, with the number of its parts, and for each region a bit for each part that came there, the first lowest.
#[derive(Drop)]
pub(crate) struct KeptWrite {
    pub(crate) row: Row,
    pub(crate) marks: [u8; MOST_REGIONS],
    pub(crate) parts: u8,
    // that of its key
    pub(crate) number: usize,
}

impl KeptWrite {
    // The bits of the parts that came to the region.
    fn mask(&self, region: u32) -> u8
        ensures { result ≡ mask_at self.now region }
    {
        match self.marks.get(region as usize) {
            Some(mask) => *mask,
            None => 0,
        }
    }

    pub(crate) fn came(&self, region: u32, part: u32) -> bool
        requires { (1 ≤ part) × (part ≤ MOST_PARTS) }
        ensures { result ≡ came self.now region part }
    {
        self.mask(region) >> (part - 1) & 1 == 1
    }

    // The first part that did not come to the region.
    pub(crate) fn first_missing(&self, region: u32) -> Option<u32>
        ensures { result ≡ first_missing self.now region }
    {
        let front = self.mask(region).trailing_ones();
        if front < u32::from(self.parts) {
            return Some(front + 1);
        }
        None
    }

    // Whether all parts came to the region.
    pub(crate) fn is_whole(&self, region: u32) -> bool
        ensures { result ≡ has_all region self.now }
    {
        u32::from(self.parts) <= self.mask(region).trailing_ones()
    }

    pub(crate) fn mark(&mut self, region: u32, part: u32)
        requires region { region < MOST_REGIONS }
        requires part { (1 ≤ part) × (part ≤ MOST_PARTS) }
        ensures { self.new ≡ marked region part self.old }
    {
        self.marks[region as usize] |= 1 << (part - 1);
    }
}
