ghost use Rattle.std.specs.Prelude.{◌≡◌, IfOk, OnOk};
ghost use Rattle.anti_ids.specs.List.{plain};
ghost use Rattle.anti_ids.specs.ListCalls.{pushed};
ghost use Rattle.anti_shim.specs.Plans.{plan};

use anti_ids::{Copies, Lineage, List, NoMemory};
use anti_kind::Handle;
use std::alloc::Global;

/// A look that a barrier makes: the number of the store, and the ids that it asks for.
#[derive(Drop)]
pub struct PlannedLook {
    pub store: u32,
    pub ids: Handle<Lineage>,
}

impl Copies for PlannedLook {
    fn copy(&self, _alloc: Global) -> Result<PlannedLook, NoMemory> {
        let ids = self.ids.share()?;
        Ok(PlannedLook {
            store: self.store,
            ids,
        })
    }
}

/// The looks of a barrier.
pub type Looks = List<PlannedLook>;

/// The looks that a barrier makes where the stores `here`, in ascending order, have a replica: one
/// for each of them of which the lineage has ids, with just these ids.
pub fn plan(alloc: Global, here: &[u32], lineage: &Lineage) -> Result<Looks, NoMemory>
    ensures { IfOk result (λ looks. looks ≡ plain (plan here.now lineage.now)) }
{
    let mut looks = List::new(alloc);
    if lineage.is_empty() {
        return Ok(looks);
    }
    for store in here {
        let ids = lineage.ids_of(alloc, *store)?;
        if ids.is_empty() {
            continue;
        }
        add_look(alloc, &mut looks, *store, ids)?;
    }
    Ok(looks)
}

// Adds the look at a store for these ids.
fn add_look(alloc: Global, looks: &mut Looks, store: u32, ids: Lineage) -> Result<(), NoMemory>
    ensures { OnOk result (looks.new ≡ pushed looks.old (record { store = store; ids = ids })) }
{
    let ids = Handle::new(alloc, ids)?;
    looks.add(PlannedLook { store, ids })
}
