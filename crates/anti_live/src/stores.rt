use anti_ids::{List, Name};

/// A kind of store.
#[derive(Clone, Copy, Debug, PartialEq, Eq)]
pub enum LiveKind {
    /// Keys with values, of which each replica shows the greatest version that came to it.
    Kv,
    /// Keys with values that come to each replica in the order of the writes, and can be scanned by a prefix.
    Table,
    /// Keys with values that come to each replica in parts of 64 bytes. It shows those of which all parts came.
    Blob,
}

/// The regions in which a store has a replica, by their numbers.
pub type Regions = List<u32>;

/// A store: its plain name, its kind, and where it has replicas.
#[derive(Drop)]
pub struct LiveStore {
    pub name: Name,
    pub kind: LiveKind,
    pub regions: Regions,
}

/// The stores, in the order of their numbers, which count from 0.
pub type LiveStores = List<LiveStore>;
