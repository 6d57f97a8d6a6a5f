ghost use Rattle.std.specs.Prelude.{◌≡◌, ◌<◌, ◌≤◌, [], IfOk, length, map};
ghost use Rattle.anti_ids.specs.declared.limits.TheConstants.{MOST_REGIONS};
ghost use Rattle.anti_shared.specs.Passes.{first_pass};
ghost use Rattle.anti_live.specs.Stores.{AreRegions, AreStores};
ghost use Rattle.anti_live.specs.Clients.{IsFirst, id_of_shared};
ghost use Rattle.anti_live.specs.Headers.{names_of};
ghost use Rattle.anti_live.specs.inner.Lives.{AreShared, IsNewStore, IsSharedAt};

use crate::client::Client;
use crate::clients::{client_of, here_at};
use crate::stores::{LiveKind, LiveStore, LiveStores};
use anti_blob::Blob;
use anti_ids::{List, Name, NoMemory};
use anti_kv::Kv;
use anti_object::{Kepts, Object};
use anti_shared::{Pass, Shared};
use anti_table::Table;
use std::alloc::Global;
use std::marker::Model;

/// Stores that threads share. Each call on them is made for a client of theirs. There is one legal history of each store; it has at most
/// 4,096 units for good, reads and looks included.
pub struct Live {
    pub(crate) alloc: Global,
    pub(crate) stores: LiveStores,
    // the names of the stores, for the texts of lineages
    pub(crate) names: Vec<Name>,
    pub(crate) shareds: Vec<Shared<Object>>,
    // empty, with room for all stores, so that `close` takes no memory
    pub(crate) kepts: Kepts,
}

impl Model for Live {
    ghost use Rattle.anti_live.specs.Clients.{LiveView};
    ghost use Rattle.anti_live.specs.inner.Lives.{IsLive};
    ghost use Rattle.std.specs.Coded.{codes};
    ghost use Rattle.anti_object.specs.contracts.object.Object as object;

    ghost Value = { LiveView };

    ghost coded = { Prim.hlevel (codes, object.the_row.coded) };

    ghost view = { λ l. record { stores = l.stores.items; shareds = l.shareds.items } };

    ghost invariant = { λ l. IsLive l.stores.items l.names.items l.shareds.items l.kepts };
}

// By hand, so that no caller sees the fields.
impl Drop for Live {
    fn drop(self) {
        let Live {
            alloc: _,
            stores,
            names,
            shareds,
            kepts,
        } = self;
        drop(stores);
        drop(names);
        drop(shareds);
        drop(kepts);
    }
}

impl Live {
    /// Shares these stores, on which no call was made yet. Beside them comes the first client, in this region. It carries nothing.
    pub fn start(alloc: Global, stores: LiveStores, region: u32) -> Result<(Live, Client), NoMemory>
        requires stores { AreStores stores.items }
        requires region { region < MOST_REGIONS }
        ensures stores { IfOk result (λ made. made.0.stores ≡ stores.items) }
        ensures client { IfOk result (λ made. IsFirst made.0 region made.1) }
    {
        let names = names_of(alloc, stores.as_slice())?;
        let here = here_at(alloc, stores.as_slice(), region)?;
        let mut kepts = List::new(alloc);
        kepts.reserve(stores.len() as u32)?;
        let (shareds, passes) = share_all(alloc, stores.as_slice())?;
        let live = Live {
            alloc,
            stores,
            names,
            shareds,
            kepts,
        };
        let client = client_of(alloc, passes, region, here);
        let _who = &client.who; // its actor is the carrier with the number of its first pass
        Ok((live, client))
    }

    /// How many stores there are. It takes no memory.
    pub fn len(&self) -> usize
        ensures { result ≡ length self.now.stores }
    {
        self.stores.len()
    }

    // The shared stores, and the list for what is left of them.
    pub(crate) fn into_parts(self) -> (Vec<Shared<Object>>, Kepts)
        ensures shareds { result.0.items ≡ self.shareds }
        ensures none { result.1.items ≡ [] }
        ensures room { length self.shareds ≤ result.1.spare }
    {
        let Live {
            alloc: _,
            stores,
            names,
            shareds,
            kepts,
        } = self;
        drop(stores);
        drop(names);
        (shareds, kepts)
    }
}

// The names of the stores.
fn names_of(alloc: Global, stores: &[LiveStore]) -> Result<Vec<Name>, NoMemory>
    ensures { IfOk result (λ names. names.items ≡ names_of stores.now) }
{
    let mut names = Vec::new(alloc);
    for store in stores {
        names.push(store.name)?;
    }
    Ok(names)
}

// A store of this number, on which nothing has happened yet.
fn object_of(alloc: Global, number: u32, store: &LiveStore) -> Result<Object, NoMemory>
    requires { AreRegions store.now.regions.items }
    ensures { IfOk result (IsNewStore number store.now) }
{
    let regions = store.regions.as_slice();
    match store.kind {
        LiveKind::Kv => Ok(Object::Kv(Kv::new(alloc, number, regions)?)),
        LiveKind::Table => Ok(Object::Table(Table::new(alloc, number, regions)?)),
        LiveKind::Blob => Ok(Object::Blob(Blob::new(alloc, number, regions)?)),
    }
}

// Shares such a store. Where there is no memory it is given up.
fn share_one(
    alloc: Global,
    number: u32,
    store: &LiveStore,
) -> Result<(Shared<Object>, Pass<Object>), NoMemory>
    requires { AreRegions store.now.regions.items }
    ensures { IfOk result (IsSharedAt number store.now) }
{
    let object = object_of(alloc, number, store)?;
    match Shared::new(alloc, number, object) {
        Ok(made) => Ok(made),
        Err((_object, fault)) => Err(fault),
    }
}

// The stores, each shared under its number, and the first pass of each.
fn share_all(
    alloc: Global,
    stores: &[LiveStore],
) -> Result<(Vec<Shared<Object>>, Vec<Pass<Object>>), NoMemory>
    requires { AreStores stores.now }
    ensures shared { IfOk result (λ made. AreShared stores.now made.0.items) }
    ensures firsts { IfOk result (λ made. made.1.items ≡ map (λ s. first_pass (id_of_shared s)) made.0.items) }
{
    let mut shareds = Vec::new(alloc);
    let mut passes = Vec::new(alloc);
    for (number, store) in stores.iter().enumerate() {
        let (shared, pass) = share_one(alloc, number as u32, store)?;
        shareds.push(shared)?;
        passes.push(pass)?;
    }
    Ok((shareds, passes))
}
