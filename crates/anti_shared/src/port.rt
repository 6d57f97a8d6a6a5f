ghost use Rattle.std.specs.Prelude.{◌≡◌};
ghost use Rattle.anti_shared.specs.Passes.{port_start, port_view, rest_of};

use crate::pass::Pass;
use crate::shared::Shared;
use anti_kind::{Actor, Answer, Call, Machine, Port, Refusal, WaitPort};
use std::marker::Model;
use std::sync::Wait;

/// A port over a shared object, for the time that a pass is lent to it: `end` gives it back.
#[derive(Drop)]
pub struct SharedPort<'a, M: Machine, R: Wait> {
    rt: &'a R,
    shared: &'a Shared<M>,
    pass: &'a mut Pass<M>,
}

impl<'a, M: Machine, R: Wait> Model for SharedPort<'a, M, R> {
    ghost use Rattle.std.specs.Prelude.{◌≡◌};
    ghost use Rattle.std.specs.Borrow.{MutBor};
    ghost use Rattle.anti_shared.specs.Passes.{PassView};

    ghost Value = { MutBor (PassView M) };

    ghost view = { λ p. p.pass };

    ghost invariant = { λ p. p.pass.now.id ≡ p.shared.now.id };
}

impl<'a, M: Machine, R: Wait> SharedPort<'a, M, R> {
    /// A port over the object, by this pass. It takes no memory.
    pub fn new(rt: &'a R, shared: &'a Shared<M>, pass: &'a mut Pass<M>) -> SharedPort<'a, M, R>
        requires { pass.old.id ≡ shared.now.id }
        ensures { result ≡ pass.entry }
    {
        SharedPort { rt, shared, pass }
    }

    /// The pass that was lent to it.
    pub fn end(self) -> &'a mut Pass<M>
        ensures { result ≡ self.entry }
    {
        let SharedPort {
            rt: _,
            shared: _,
            pass,
        } = self;
        pass
    }
}

impl<'a, M: Machine, R: Wait> Port for SharedPort<'a, M, R> {
    type Rest = &'a mut Pass<M>;

    ghost start = { λ port. port_start M.start port.now };

    ghost view = { λ port. port_view port.now };

    ghost rest = { λ port. record port { now = rest_of port.now } };

    fn has(&self, object: u32) -> bool {
        let shared = self.shared;
        object == shared.object
    }

    /// As `Shared::call`. An object that is not the port's answers that the call is not ready.
    fn call(&mut self, object: u32, actor: Actor, span: u32, clock: u64, c: Call) -> Answer {
        let shared = self.shared;
        if object != shared.object {
            return Answer::Refused(Refusal::NotYet);
        }
        shared.call(self.rt, self.pass, actor, span, clock, c)
    }
}

impl<'a, M: Machine, R: Wait> WaitPort for SharedPort<'a, M, R> {
    /// As `Shared::call_wait`.
    fn call_wait(&mut self, object: u32, actor: Actor, span: u32, clock: u64, c: Call) -> Answer {
        self.shared
            .call_wait(self.rt, self.pass, actor, span, clock, c)
    }
}
