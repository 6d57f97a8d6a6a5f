ghost use Rattle.std.specs.Prelude.{◌≡◌, ℕ, Err, is_some, true};
ghost use Rattle.anti_shim.specs.Steps.{between};
ghost use Rattle.anti_shim.specs.Shims.{Sees};

use crate::asks::Asks;
use crate::caller::{Caller, Made};
use crate::fault::ShimFault;
use anti_ids::{Copies, Lineage, List, NoMemory};
use anti_kind::{Call, Handle, Port, Refusal, Reply};
use std::alloc::Global;

/// A look that found nothing missing: the number of the store, and the place and the stamp of the
/// look.
#[derive(Clone, Copy)]
pub struct Sight {
    pub store: u32,
    pub place: u32,
    pub stamp: u64,
}

impl Copies for Sight {
    fn copy(&self, _alloc: Global) -> Result<Sight, NoMemory> {
        Ok(*self)
    }
}

/// A list of sights.
pub type Sights = List<Sight>;

// Makes one look that is not dry at a port that is asked so, and gives its sight.
pub(crate) fn see<P: Port, A: Asks<P>>(
    port: &mut P,
    who: &mut Caller,
    store: u32,
    region: u32,
    ids: Handle<Lineage>,
) -> Result<Sight, ShimFault>
    ensures answer { let step = between P.Port port.old port.new who.old who.new in
        Sees step store region ids result }
    ensures fixed { (o : ℕ) → P.start port.new o ≡ P.start port.old o }
    ensures rest { P.rest port.new ≡ P.rest port.old }
    ensures waits { A.waits ≡ true → is_some (P.start port.old store) ≡ true → result ≡ Err (ShimFault.Refused Refusal.NotYet) → ⊥ }
{
    let look = Call::Look {
        region,
        ids,
        dry: false,
    };
    let Made {
        place,
        stamp,
        reply,
    } = who.ask::<P, A>(port, store, look)?;
    let Reply::Missing { unwritten, .. } = reply else {
        // by `IsAsked`: the entry that was made has the reply that its call is due
        unreachable!()
    };
    match unwritten.get().iter().next() {
        Some(id) => Err(ShimFault::Unwritten(*id)),
        None => Ok(Sight {
            store,
            place,
            stamp,
        }),
    }
}
