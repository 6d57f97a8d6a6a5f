//! A store of the kind cached: keys with values, whose regions read through a cache of the keys that were read there last.
#![tactic(auto)]

mod cached_store;
mod caches;
mod changes;
mod looks;

pub use cached_store::CachedKv;
