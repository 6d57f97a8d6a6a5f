ghost use Rattle.std.specs.Prelude.{◌≡◌, true, ◌&&◌, IsTrue};
ghost use Rattle.std.specs.List.{list_any};
ghost use Rattle.std.specs.Str.{bytes_eq};
ghost use Rattle.anti_ids.specs.Names.{is_name};
ghost use Rattle.anti_baggage.specs.Over.{IsIdOver, IsOver, are_names};

use anti_ids::{Lineage, Name, WriteId};

// Whether one of the stores has a name, which is always a name.
fn is_among(name: &Name, stores: &[Name]) -> bool
    ensures is { result ≡ list_any (bytes_eq name.now) stores.now }
    ensures name { is_name name.now ≡ true }
{
    let _bytes = name.bytes();
    stores.iter().any(|store| name == store)
}

/// Whether no two stores have the same name.
pub fn are_names(stores: &[Name]) -> bool
    ensures { result ≡ are_names stores.now }
{
    let mut rest = stores;
    while let [first, later @ ..] = rest {
        if is_among(first, later) {
            return false;
        }
        rest = later;
    }
    true
}

// Whether an id is of one of the stores. Its key is always a name.
fn is_id_over(stores: &[Name], id: &WriteId) -> bool
    ensures { IsTrue result → IsIdOver stores.now id.now }
{
    let _key = id.key.bytes();
    let _version = id.version;
    (id.store as usize) < stores.len()
}

/// Whether each id of a lineage is of one of the stores.
pub fn is_over(stores: &[Name], lineage: &Lineage) -> bool
    ensures { IsTrue result → IsOver stores.now lineage.now }
{
    for id in lineage.iter() {
        if !is_id_over(stores, id) {
            return false;
        }
    }
    true
}
