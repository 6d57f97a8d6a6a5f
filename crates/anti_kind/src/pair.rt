ghost use Rattle.std.specs.Prelude.{◌≡◌, ℕ, is_some, true};
ghost use Rattle.anti_kind.specs.Shipments.{IsShip};
ghost use Rattle.anti_kind.specs.Ports.{Answered, first_start, first_view};

use crate::actor::Actor;
use crate::call::Call;
use crate::port::{Answer, Port, WaitPort};

/// A port over two others, and so, as one of them may be such a pair, over any number. What is asked of an object that the first has goes
/// to it, and all else to the second.
#[derive(Drop)]
pub struct Pair<P, Q> {
    pub first: P,
    pub second: Q,
}

impl<P: Port, Q: Port> Port for Pair<P, Q> {
    type Rest = (P::Rest, Q::Rest);

    ghost start = { λ pair o. first_start (P.start pair.first o) (Q.start pair.second o) };

    ghost view = { λ pair o. first_view (P.start pair.first o) (P.view pair.first o) (Q.view pair.second o) };

    ghost rest = { λ pair. (P.rest pair.first, Q.rest pair.second) };

    fn has(&self, object: u32) -> bool {
        self.first.has(object) || self.second.has(object)
    }

    fn call(&mut self, object: u32, actor: Actor, span: u32, clock: u64, c: Call) -> Answer {
        if self.first.has(object) {
            self.first.call(object, actor, span, clock, c)
        } else {
            self.second.call(object, actor, span, clock, c)
        }
    }
}

impl<P: WaitPort, Q: WaitPort> WaitPort for Pair<P, Q> {
    fn call_wait(&mut self, object: u32, actor: Actor, span: u32, clock: u64, c: Call) -> Answer {
        if self.first.has(object) {
            self.first.call_wait(object, actor, span, clock, c)
        } else {
            self.second.call_wait(object, actor, span, clock, c)
        }
    }
}
