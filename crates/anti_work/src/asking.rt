ghost use Rattle.std.specs.Prelude.{◌≡◌, ◌<◌, length};
ghost use Rattle.anti_kind.specs.Shipments.{IsShip};
ghost use Rattle.anti_work.specs.inner.Knowing.{AreOf, IsAskedBy, IsToldBy};

use anti_kind::{Answer, Asking};
use anti_object::Object;
use anti_shared::{Pass, Shared};
use std::sync::Wait;

// Asks a call of the shared object that it is at, by the pass of that object. It may wait for the turn.
pub(crate) fn ask<R: Wait>(
    rt: &R,
    shared: &[Shared<Object>],
    passes: &mut Vec<Pass<Object>>,
    asking: Asking,
) -> Answer
    requires there { asking.object < length shared.now }
    requires of { AreOf shared.now passes.old.items }
    ensures of { AreOf shared.now passes.new.items }
    ensures asked { IsAskedBy passes.old.items passes.new.items asking result }
    ensures ship { IsShip asking.call → result ≡ Answer.NoMemory → ⊥ }
{
    let Asking {
        object,
        actor,
        span,
        clock,
        call,
    } = asking;
    let at = object as usize;
    let pass = &mut passes[at];
    let answer = shared[at].call(rt, pass, actor, span, clock, call);
    // it tells what is true of each pass
    let _number = pass.number();
    answer
}

// How many versions, from the first on, are whole at a region of the shared object at a place, as the pass of that object is told. It does
// not take the turn.
pub(crate) fn upto(
    shared: &[Shared<Object>],
    passes: &mut Vec<Pass<Object>>,
    object: u32,
    region: u32,
) -> u64
    requires there { object < length shared.now }
    requires of { AreOf shared.now passes.old.items }
    requires region { region < 8 }
    ensures { IsToldBy passes.old.items passes.new.items object }
{
    let at = object as usize;
    let pass = &mut passes[at];
    let upto = shared[at].upto(pass, region);
    // it tells what is true of each pass
    let _number = pass.number();
    upto
}
