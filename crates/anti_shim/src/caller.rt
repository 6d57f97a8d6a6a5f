ghost use Rattle.std.specs.Prelude.{◌≡◌, ℕ, Err, is_some, true};
ghost use Rattle.anti_shim.specs.Steps.{between, IsAsked};

use crate::asks::Asks;
use crate::fault::ShimFault;
use anti_kind::{Actor, Answer, Call, Port, Refusal, Reply};

/// Who makes calls: the actor, the span of its process, and its last stamp, which becomes the stamp
/// of each entry that its calls make.
#[derive(Clone, Copy)]
pub struct Caller {
    pub actor: Actor,
    pub span: u32,
    pub clock: u64,
}

/// What a call made: the place and the stamp of its entry, and the reply.
#[derive(Drop)]
pub struct Made {
    pub place: u32,
    pub stamp: u64,
    pub reply: Reply,
}

impl Caller {
    // Makes one call on an object of a port that is asked so. Where the port refuses it, the fault
    // says so.
    pub(crate) fn ask<P: Port, A: Asks<P>>(
        &mut self,
        port: &mut P,
        object: u32,
        call: Call,
    ) -> Result<Made, ShimFault>
        ensures answer { let step = between P.Port port.old port.new self.old self.new in
            IsAsked step object call result }
        ensures fixed { (o : ℕ) → P.start port.new o ≡ P.start port.old o }
        ensures rest { P.rest port.new ≡ P.rest port.old }
        ensures waits { A.waits ≡ true → is_some (P.start port.old object) ≡ true → result ≡ Err (ShimFault.Refused Refusal.NotYet) → ⊥ }
    {
        match A::ask(port, object, self.actor, self.span, self.clock, call) {
            Answer::Made {
                place,
                stamp,
                reply,
            } => {
                self.clock = stamp;
                Ok(Made {
                    place,
                    stamp,
                    reply,
                })
            }
            Answer::Refused(refusal) => Err(ShimFault::Refused(refusal)),
            Answer::NoMemory => Err(ShimFault::NoMemory),
        }
    }
}
