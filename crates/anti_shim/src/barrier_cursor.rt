ghost use Rattle.std.specs.Prelude.{◌≡◌, ℕ, [], Err, is_some, true};
ghost use Rattle.anti_shim.specs.Steps.{between};
ghost use Rattle.anti_shim.specs.Sights.{has_sight};
ghost use Rattle.anti_shim.specs.inner.Looks.{LooksOnce};

use crate::asks::Asks;
use crate::caller::Caller;
use crate::fault::ShimFault;
use crate::looks::PlannedLook;
use crate::sight::{Sights, see};
use anti_ids::List;
use anti_kind::{Port, Refusal};
use std::alloc::Global;
use std::marker::Model;

/// What the calls of a barrier have seen, so that a later call does not look once more where an
/// earlier one found nothing missing.
#[derive(Drop)]
pub struct Barrier {
    seen: Sights,
}

impl Model for Barrier {
    ghost use Rattle.std.specs.Prelude.{List};
    ghost use Rattle.anti_shim.specs.declared.sight.Sight.{Sight};

    ghost Value = { List Sight };

    ghost view = { λ b. b.seen.items };
}

impl Barrier {
    /// A barrier that has seen nothing. It takes no memory.
    pub fn begin(alloc: Global) -> Barrier
        ensures { result ≡ [] }
    {
        Barrier {
            seen: List::new(alloc),
        }
    }

    // Whether there is a sight of a store.
    pub(crate) fn has(&self, store: u32) -> bool
        ensures { result ≡ has_sight self.now store }
    {
        for sight in self.seen.as_slice() {
            if sight.store == store {
                return true;
            }
        }
        false
    }

    // Gives up the sights.
    pub(crate) fn take(&mut self, alloc: Global) -> Sights
        ensures sights { result.items ≡ self.old }
        ensures none { self.new ≡ [] }
    {
        std::mem::replace(&mut self.seen, List::new(alloc))
    }

    // Makes a planned look at a port that is asked so, and keeps its sight.
    pub(crate) fn look<P: Port, A: Asks<P>>(
        &mut self,
        port: &mut P,
        who: &mut Caller,
        region: u32,
        look: &PlannedLook,
    ) -> Result<(), ShimFault>
        ensures answer { let step = between P.Port port.old port.new who.old who.new in
            LooksOnce step region look.now self.old self.new result }
        ensures fixed { (o : ℕ) → P.start port.new o ≡ P.start port.old o }
        ensures rest { P.rest port.new ≡ P.rest port.old }
        ensures waits { A.waits ≡ true → is_some (P.start port.old look.now.store) ≡ true → result ≡ Err (ShimFault.Refused Refusal.NotYet) → ⊥ }
    {
        let Ok(ids) = look.ids.share() else {
            return Err(ShimFault::NoMemory);
        };
        let Ok(()) = self.seen.reserve(1) else {
            return Err(ShimFault::NoMemory);
        };
        let sight = see::<P, A>(port, who, look.store, region, ids)?;
        self.seen.put(sight);
        Ok(())
    }
}
