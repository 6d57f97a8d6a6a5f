ghost use Rattle.std.specs.Prelude.{◌≡◌, ℕ, true};
ghost use Rattle.anti_shim.specs.Plans.{plan};
ghost use Rattle.anti_shim.specs.Steps.{between};
ghost use Rattle.anti_shim.specs.Sights.{IsHere};
ghost use Rattle.anti_shim.specs.Looks.{OnlyLooks};
ghost use Rattle.anti_shim.specs.DryRuns.{DryRunGives};
ghost use Rattle.anti_shim.specs.inner.Looks.{SeesDry};

use crate::asks::Once;
use crate::caller::Caller;
use crate::fault::ShimFault;
use crate::looks::plan;
use anti_ids::Lineage;
use anti_kind::{Call, Handle, Port, Reply};
use std::alloc::Global;

/// Makes a dry look at each store of `here` of which the lineage has ids, and names all ids that
/// these looks named as missing, each at its own store's step. The stores `here` have a replica in
/// the region, and stand in ascending order. A refusal takes back none of the looks that were made.
pub fn dry_run<P: Port>(
    alloc: Global,
    port: &mut P,
    who: &mut Caller,
    region: u32,
    here: &[u32],
    lineage: &Lineage,
) -> Result<Lineage, ShimFault>
    requires { IsHere (P.start port.old) region here.now }
    ensures answer { let step = between P.Port port.old port.new who.old who.new in
        DryRunGives step region (plan here.now lineage.now) result }
    ensures only { let step = between P.Port port.old port.new who.old who.new in
        OnlyLooks step region true (plan here.now lineage.now) }
    ensures fixed { (o : ℕ) → P.start port.new o ≡ P.start port.old o }
    ensures rest { P.rest port.new ≡ P.rest port.old }
{
    let Ok(looks) = plan(alloc, here, lineage) else {
        return Err(ShimFault::NoMemory);
    };
    let Ok(mut named) = Lineage::root(alloc).reserve(lineage.len()) else {
        return Err(ShimFault::NoMemory);
    };
    for look in looks.as_slice() {
        let Ok(ids) = look.ids.share() else {
            return Err(ShimFault::NoMemory);
        };
        let missing = see_dry(port, who, look.store, region, ids)?;
        match named.transfer(missing.get()) {
            Ok(()) => {}
            // all that is named is of the lineage, for whose ids there is room
            Err(_) => unreachable!(),
        }
    }
    Ok(named.into_lineage())
}

// Makes one dry look, and gives what it named as missing.
fn see_dry<P: Port>(
    port: &mut P,
    who: &mut Caller,
    store: u32,
    region: u32,
    ids: Handle<Lineage>,
) -> Result<Handle<Lineage>, ShimFault>
    ensures answer { let step = between P.Port port.old port.new who.old who.new in
        SeesDry step store region ids result }
    ensures fixed { (o : ℕ) → P.start port.new o ≡ P.start port.old o }
    ensures rest { P.rest port.new ≡ P.rest port.old }
{
    let look = Call::Look {
        region,
        ids,
        dry: true,
    };
    let made = who.ask::<P, Once>(port, store, look)?;
    let Reply::Missing { missing, .. } = made.reply else {
        // by `IsAsked`: the entry that was made has the reply that its call is due
        unreachable!()
    };
    Ok(missing)
}
