ghost use Rattle.std.specs.Prelude.{◌≡◌, ◌<◌, ◌^◌, length, map, IfOk, IsTrue};
ghost use Rattle.std.specs.List.{list_all};
ghost use Rattle.anti_ids.specs.List.{plain};
ghost use Rattle.toml.specs.View.{view};
ghost use Rattle.anti_app.specs.Parts.{store_of};
ghost use Rattle.anti_app.specs.inner.Fit.{is_fit_store, replica_of};

use crate::app::{Numbers, StoreDef, Stores};
use crate::named::number_in;
use crate::table_values::{integer_at, name_in, number_or};
use anti_ids::{List, Name, NoMemory};
use anti_kind::StoreKind;
use anti_rules::{text_at, text_of, things_in};
use std::alloc::Global;
use toml::Value;

// How often a message is given out at most where the document says nothing.
const TRIES: u64 = 3;

// How many keys the cache of a replica holds where the document says nothing.
const ROOM: u64 = 8;

// The number of the region of a replica.
#[tactic(auto, unfolding(crate::specs::inner::Fit::replica_of))]
fn replica_of(regions: &[Name], value: &Value) -> u32
    requires { length regions.now < 2 ^ 32 }
    ensures { result ≡ replica_of regions.now (view value.now) }
{
    number_in(regions, text_of(value))
}

// The regions of some replicas.
fn replicas_of(alloc: Global, regions: &[Name], values: &[Value]) -> Result<Numbers, NoMemory>
    requires { length regions.now < 2 ^ 32 }
    ensures { IfOk result (λ replicas. replicas
        ≡ plain (map (replica_of regions.now) (map view values.now))) }
{
    let mut replicas = List::new(alloc);
    for value in values {
        replicas.add(replica_of(regions, value))?;
    }
    Ok(replicas)
}

#[tactic(auto, unfolding(crate::specs::Parts::store_of, crate::specs::inner::Fit::is_fit_store, crate::specs::inner::Fit::replica_of))]
fn store_of(alloc: Global, regions: &[Name], value: &Value) -> Result<StoreDef, NoMemory>
    requires few { length regions.now < 2 ^ 32 }
    requires fit { IsTrue (is_fit_store (view value.now)) }
    ensures { IfOk result (λ store. store ≡ store_of regions.now (view value.now)) }
{
    let replicas = replicas_of(alloc, regions, things_in(value, "replicas"))?;
    Ok(StoreDef {
        name: name_in(value),
        kind: StoreKind::of_word(text_at(value, "kind")),
        replicas,
        tries: number_or(TRIES, integer_at(value, "tries")) as u32,
        room: number_or(ROOM, integer_at(value, "room")) as u32,
    })
}

/// The stores that a document lists, for its regions.
pub fn stores_of(alloc: Global, regions: &[Name], values: &[Value]) -> Result<Stores, NoMemory>
    requires few { length regions.now < 2 ^ 32 }
    requires fit { IsTrue (list_all is_fit_store (map view values.now)) }
    ensures { IfOk result (λ stores. stores
        ≡ plain (map (store_of regions.now) (map view values.now))) }
{
    let mut stores = List::new(alloc);
    for value in values {
        let store = store_of(alloc, regions, value)?;
        stores.add(store)?;
    }
    Ok(stores)
}
