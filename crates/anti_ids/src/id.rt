ghost use Rattle.std.specs.Prelude.{ℕ, List};
ghost use Rattle.std.proofs.Common.{rules};
ghost use Rattle.std.specs.Cmp.{partial_order_from_own_ties};
ghost use Rattle.std.specs.Cmp.Rules.{comparing};
ghost use Rattle.std.specs.Cmp.Lexicographic.{slice_cmp};
ghost use Rattle.std.specs.Ordering.{nat_cmp, on, then_cmp, as_partial_cmp};

use crate::copies::Copies;
use crate::memory::NoMemory;
use crate::name::Name;
use std::alloc::Global;
use std::cmp::Ordering;

/// Names a write: the store's number, the key and the version, which counts the writes of the store: the first has
/// version 1. Ids are ordered by (store, version, key).
#[derive(Clone, Copy, Debug, PartialEq, Eq)]
pub struct WriteId {
    pub store: u32,
    pub key: Name,
    pub version: u64,
}

impl Copies for WriteId {
    fn copy(&self, _alloc: Global) -> Result<WriteId, NoMemory> {
        Ok(*self)
    }
}

impl Ord for WriteId {
    ghost cmp = { then_cmp (on (λ i. i.store) nat_cmp) (then_cmp (on (λ i. i.version) nat_cmp) (on (λ i. i.key) (slice_cmp nat_cmp))) };

    ghost total = { Prim.search (comparing, rules) };

    ghost matches_partial_cmp = { Prim.search (comparing, rules) };

    ghost matches_eq = { Prim.search (comparing, rules) depth 9 };

    fn cmp(&self, other: &WriteId) -> Ordering {
        if self.store != other.store {
            return self.store.cmp(&other.store);
        }
        if self.version != other.version {
            return self.version.cmp(&other.version);
        }
        self.key.cmp(&other.key)
    }
}

impl PartialOrd for WriteId {
    ghost partial_cmp = { as_partial_cmp (then_cmp (on (λ i. i.store) nat_cmp) (then_cmp (on (λ i. i.version) nat_cmp) (on (λ i. i.key) (slice_cmp nat_cmp)))) };

    ghost laws = { partial_order_from_own_ties (Prim.search (comparing, rules) depth 9) (Prim.search (comparing, rules) depth 9) };

    fn partial_cmp(&self, other: &WriteId) -> Option<Ordering> {
        Some(self.cmp(other))
    }
}
