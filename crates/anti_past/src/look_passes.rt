ghost use Rattle.std.specs.Prelude.{◌≡◌, is_some};
ghost use Rattle.anti_app.specs.Objects.{is_store_here};
ghost use Rattle.anti_past.specs.inner.Found.{found_by, has_found};
ghost use Rattle.anti_past.specs.inner.Looking.{all_pass, passes};

use crate::finds::Finds;
use crate::span_finds::SpanFinds;
use crate::span_keys::SpanKey;
use anti_app::App;
use anti_ids::{Lineage, WriteId};

// Whether the store of a number has a replica in a region.
fn is_store_here(app: &App, region: u32, store: u32) -> bool
    ensures { result ≡ is_store_here app.now region store }
{
    match app.stores.as_slice().get(store as usize) {
        Some(store) => store.replicas.as_slice().contains(&region),
        None => false,
    }
}

// The index behind an id among the found ones of its store, where it is looked for at some index first.
fn behind(found: Option<&SpanFinds>, at: usize, id: &WriteId) -> Option<usize>
    ensures { is_some result ≡ found_by found.entry id.now }
{
    match found {
        Some(found) => found.behind(at, id),
        None => None,
    }
}

// Whether an id was found, or is of no store with a replica in a region: then it is told where the next one is looked for first. What was
// found is mostly found at once, so the store is asked for last.
fn passes(
    app: &App,
    region: u32,
    found: Option<&SpanFinds>,
    at: usize,
    id: &WriteId,
) -> Option<usize>
    ensures { is_some result ≡ passes app.now region (found_by found.entry) id.now }
{
    if let Some(next) = behind(found, at, id) {
        return Some(next);
    }
    if is_store_here(app, region, id.store) {
        None
    } else {
        Some(at)
    }
}

// Whether all ids pass.
fn each_passes(app: &App, region: u32, found: Option<&SpanFinds>, ids: &Lineage) -> bool
    ensures { result ≡ all_pass app.now region (found_by found.entry) ids.now }
{
    let mut at = 0;
    for id in ids.iter() {
        match passes(app, region, found, at, id) {
            Some(next) => at = next,
            None => return false,
        }
    }
    true
}

/// Whether all of these ids were found in a span, but those of stores with no replica in a region.
pub fn all_pass(app: &App, region: u32, found: &Finds, span: SpanKey, ids: &Lineage) -> bool
    ensures { result ≡ all_pass app.now region (has_found found.now span) ids.now }
{
    each_passes(app, region, found.of(&span), ids)
}
