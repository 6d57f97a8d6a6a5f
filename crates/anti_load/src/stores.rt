ghost use Rattle.std.specs.Prelude.{◌≡◌, [], ◌∷◌, IfOk};
ghost use Rattle.anti_ids.specs.List.{plain};
ghost use Rattle.anti_load.specs.Load.{posts, notes, fans};

use crate::lists::{one, two};
use crate::names::name_of;
use anti_app::{StoreDef, StoreKind, SubDef};
use anti_ids::{List, NoMemory};
use std::alloc::Global;

/// The stores: the posts and the notes.
pub fn stores(alloc: Global) -> Result<List<StoreDef>, NoMemory>
    ensures { IfOk result (λ stores. stores ≡ plain (posts ∷ notes ∷ [])) }
{
    two(alloc, posts(alloc)?, notes(alloc)?)
}

// The posts, in both regions.
fn posts(alloc: Global) -> Result<StoreDef, NoMemory>
    ensures { IfOk result (λ store. store ≡ posts) }
{
    let replicas = two(alloc, 0, 1)?;
    Ok(StoreDef {
        name: name_of("posts"),
        kind: StoreKind::Kv,
        replicas,
        tries: 3,
        room: 8,
    })
}

// The notes of posts, in the second region.
fn notes(alloc: Global) -> Result<StoreDef, NoMemory>
    ensures { IfOk result (λ store. store ≡ notes) }
{
    let replicas = one(alloc, 1)?;
    Ok(StoreDef {
        name: name_of("notes"),
        kind: StoreKind::Queue,
        replicas,
        tries: 3,
        room: 8,
    })
}

/// The notes start the reader.
pub fn fans() -> SubDef
    ensures { result ≡ fans }
{
    SubDef {
        name: name_of("fans"),
        store: 1,
        channel: name_of("n"),
        service: 1,
        handler: 0,
    }
}
