use anti_app::App;
use anti_ids::{PART_BYTES, Value};

/// The regions of the replicas of a store.
pub(crate) fn regions_of(app: &App, store: u32) -> &[u32] {
    match app.stores.as_slice().get(store as usize) {
        Some(store) => store.replicas.as_slice(),
        None => &[],
    }
}

/// Whether reads of a store go through caches.
pub(crate) fn is_cached(app: &App, store: u32) -> bool {
    match app.stores.as_slice().get(store as usize) {
        Some(store) => store.kind.facts().cached,
        None => false,
    }
}

/// How many parts a value has in a store.
pub(crate) fn parts_of(app: &App, store: u32, value: &Value) -> u32 {
    match app.stores.as_slice().get(store as usize) {
        Some(store) if store.kind.facts().parted => {
            value.bytes().len().div_ceil(PART_BYTES).max(1) as u32
        }
        _ => 1,
    }
}
