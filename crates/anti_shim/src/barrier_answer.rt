ghost use Rattle.anti_shim.specs.inner.Looks.{IsOfLook, IsRefusal};

use crate::fault::ShimFault;
use crate::sight::Sights;
use anti_ids::WriteId;
use anti_kind::Refusal;

/// What a barrier answers.
#[derive(Drop)]
pub enum BarrierAnswer {
    /// Each planned store was looked at, now or in an earlier call, and nothing was missing there:
    /// where each look was made.
    Clear(Sights),
    /// The port refused the look at a planned store: `NotYet` where the store misses an id.
    Refused(Refusal),
    /// The look at a planned store was made, and this id is the first that nobody wrote.
    Unwritten(WriteId),
    /// There was no memory, and no look was refused.
    NoMemory,
}

impl BarrierAnswer {
    // The answer of a barrier whose look gave a fault.
    pub(crate) fn refused(fault: ShimFault) -> BarrierAnswer
        requires { IsOfLook fault }
        ensures { IsRefusal fault result }
    {
        match fault {
            ShimFault::Refused(refusal) => BarrierAnswer::Refused(refusal),
            ShimFault::Unwritten(id) => BarrierAnswer::Unwritten(id),
            // no look appends an id, so `IsOfLook` leaves this one out
            ShimFault::LineageFull(_) => unreachable!(),
            ShimFault::NoMemory => BarrierAnswer::NoMemory,
        }
    }
}
