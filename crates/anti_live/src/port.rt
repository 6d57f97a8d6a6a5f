ghost use Rattle.std.specs.Prelude.{◌≡◌, ◌<◌, ℕ, is_some, length, map, true};
ghost use Rattle.anti_shim.specs.Sights.{IsHere};
ghost use Rattle.anti_live.specs.Stores.{here_of};
ghost use Rattle.anti_live.specs.Clients.{id_of_pass, id_of_shared, starts_in, views_in};
ghost use Rattle.anti_live.specs.inner.Lives.{ArePasses, rests_of};

use crate::live::Live;
use anti_ids::List;
use anti_kind::{Actor, Answer, Call, Port, Refusal, WaitPort};
use anti_object::Object;
use anti_shared::{Pass, Shared};
use std::marker::Model;
use std::sync::Wait;

// A port over all stores, for the time that it has a client's passes. It owns them, since nothing would be known of passes that were lent to a
// value with an invariant of its own once it is gone.
#[derive(Drop)]
pub(crate) struct LivePort<'a, R: Wait> {
    rt: &'a R,
    shareds: &'a [Shared<Object>],
    passes: Vec<Pass<Object>>,
}

impl<'a, R: Wait> Model for LivePort<'a, R> {
    ghost use Rattle.std.specs.Prelude.{List as Items};
    ghost use Rattle.anti_shared.specs.Passes.{PassView};
    ghost use Rattle.anti_object.specs.declared.object.Object.{Object};
    ghost use Rattle.anti_live.specs.inner.Lives.{ArePasses};
    ghost use Rattle.std.specs.Coded.{codes};
    ghost use Rattle.anti_object.specs.contracts.object.Object as object;

    ghost Value = { Items (PassView Object) };

    ghost coded = { Prim.hlevel (codes, object.the_row.coded) };

    ghost view = { λ p. p.passes.items };

    ghost invariant = { λ p. ArePasses p.shareds.now p.passes.items };
}

impl<'a, R: Wait> LivePort<'a, R> {
    // A port over these objects, by these passes.
    pub(crate) fn new(
        rt: &'a R,
        shareds: &'a [Shared<Object>],
        passes: Vec<Pass<Object>>,
    ) -> LivePort<'a, R>
        requires { ArePasses shareds.now passes.items }
        ensures { result ≡ passes.items }
    {
        LivePort {
            rt,
            shareds,
            passes,
        }
    }

    // The passes.
    pub(crate) fn into_passes(self) -> Vec<Pass<Object>>
        ensures { result.items ≡ self.entry }
    {
        let LivePort {
            rt: _,
            shareds: _,
            passes,
        } = self;
        passes
    }
}

impl Live {
    // A port over the stores, which has these passes until it is taken apart. None are left in their place.
    pub(crate) fn port<'a, R: Wait>(
        &'a self,
        rt: &'a R,
        passes: &mut Vec<Pass<Object>>,
    ) -> LivePort<'a, R>
        requires { map id_of_pass passes.old.items ≡ map id_of_shared self.now.shareds }
        ensures passes { result ≡ passes.old.items }
        ensures there { (o : ℕ) → o < length self.now.stores → is_some (starts_in result o) ≡ true }
        ensures here { (region : ℕ) → IsHere (starts_in result) region (here_of region self.now.stores) }
    {
        let taken = std::mem::replace(passes, Vec::new(self.alloc));
        LivePort::new(rt, self.shareds.as_slice(), taken)
    }
}

impl<'a, R: Wait> Port for LivePort<'a, R> {
    type Rest = List<Pass<Object>>;

    ghost start = { starts_in };

    ghost view = { views_in };

    ghost rest = { rests_of };

    fn has(&self, object: u32) -> bool {
        (object as usize) < self.shareds.len()
    }

    // As `Shared::call`. An object that is not the port's answers that the call is not ready.
    fn call(&mut self, object: u32, actor: Actor, span: u32, clock: u64, c: Call) -> Answer {
        let at = object as usize;
        let shareds = self.shareds;
        if at >= shareds.len() {
            return Answer::Refused(Refusal::NotYet);
        }
        shareds[at].call(self.rt, &mut self.passes[at], actor, span, clock, c)
    }
}

impl<'a, R: Wait> WaitPort for LivePort<'a, R> {
    // As `Shared::call_wait`.
    fn call_wait(&mut self, object: u32, actor: Actor, span: u32, clock: u64, c: Call) -> Answer {
        let at = object as usize;
        self.shareds[at].call_wait(self.rt, &mut self.passes[at], actor, span, clock, c)
    }
}
