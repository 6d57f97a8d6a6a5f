ghost use Rattle.std.specs.Prelude.{◌≡◌, All, None, IfNone, IfSome};
ghost use Rattle.anti_kind.specs.Shipments.{IsShip};
ghost use Rattle.anti_kind.specs.Ports.{Answered};
ghost use Rattle.anti_shared.specs.Passes.{HasLoaded, after_call, after_calls, start_of, view_of};

use crate::marking::tell;
use crate::pass::Pass;
use crate::shared::Shared;
use anti_kind::{Actor, Answer, Asking, Call, Machine, Refusal};
use std::sync::Wait;
use std::thread;

impl<M: Machine> Shared<M> {
    // Takes the turn, offers what is asked, and gives the turn back. Then it raises the marks that grew. What is not ready is put into
    // `waiting`.
    fn visit<R: Wait>(
        &self,
        rt: &R,
        pass: &mut Pass<M>,
        asking: Asking,
        waiting: &mut Option<Asking>,
    ) -> Answer
        requires of { pass.old.id ≡ self.now.id }
        requires object { asking.object ≡ self.now.id.object }
        requires none { waiting.old ≡ None }
        ensures answered { Answered (start_of M.start pass.old.id) asking (view_of pass.old) (view_of pass.new) result }
        ensures waits { IfNone waiting.new (result ≡ Answer.Refused Refusal.NotYet → ⊥) }
        ensures back { IfSome waiting.new (λ back. (back ≡ asking) × (result ≡ Answer.Refused Refusal.NotYet)) }
        ensures pass { pass.new ≡ after_call pass.old pass.new.seen pass.new.mine pass.new.raised }
        ensures own { All (λ e. e.seat ≡ pass.old.number) pass.new.mine }
        ensures loaded { HasLoaded M.start pass.old pass.new.seen }
        ensures ship { IsShip asking.call → result ≡ Answer.NoMemory → ⊥ }
    {
        let number = pass.seat.number();
        let mut held = self.turn.enter(rt, &mut pass.seat);
        let answer = held.value.offer(number, asking, waiting);
        let risen = held.value.risen(&pass.raised);
        self.turn.leave(&mut pass.seat, held);
        tell(&self.turn, &mut pass.seat, &mut pass.raised, risen);
        answer
    }

    /// Makes a call on the object, for an actor whose last stamp is `clock`. It may wait for the turn. Memory is wanted only for a call
    /// that is ready, fits and has a stamp, and never for a `Ship`.
    pub fn call<R: Wait>(
        &self,
        rt: &R,
        pass: &mut Pass<M>,
        actor: Actor,
        span: u32,
        clock: u64,
        c: Call,
    ) -> Answer
        requires { pass.old.id ≡ self.now.id }
        ensures answer { Answered (start_of M.start pass.old.id) (record { object = pass.old.id.object; actor = actor; span = span; clock = clock; call = c }) (view_of pass.old) (view_of pass.new) result }
        ensures pass { pass.new ≡ after_call pass.old pass.new.seen pass.new.mine pass.new.raised }
        ensures own { All (λ e. e.seat ≡ pass.old.number) pass.new.mine }
        ensures loaded { HasLoaded M.start pass.old pass.new.seen }
        ensures ship { IsShip c → result ≡ Answer.NoMemory → ⊥ }
    {
        let asking = Asking {
            object: self.object,
            actor,
            span,
            clock,
            call: c,
        };
        self.visit(rt, pass, asking, &mut None)
    }

    /// Makes a call on the object once it is ready: it tries until then, and is never refused as not ready. Memory is wanted only for a call that
    /// is ready, fits and has a stamp, and never for a `Ship`.
    pub fn call_wait<R: Wait>(
        &self,
        rt: &R,
        pass: &mut Pass<M>,
        actor: Actor,
        span: u32,
        clock: u64,
        c: Call,
    ) -> Answer
        requires { pass.old.id ≡ self.now.id }
        ensures answer { Answered (start_of M.start pass.old.id) (record { object = pass.old.id.object; actor = actor; span = span; clock = clock; call = c }) (view_of pass.old) (view_of pass.new) result }
        ensures waits { result ≡ Answer.Refused Refusal.NotYet → ⊥ }
        ensures pass { pass.new ≡ after_calls pass.old pass.new.seen pass.new.mine pass.new.raised pass.new.visits }
        ensures own { All (λ e. e.seat ≡ pass.old.number) pass.new.mine }
        ensures loaded { HasLoaded M.start pass.old pass.new.seen }
        ensures ship { IsShip c → result ≡ Answer.NoMemory → ⊥ }
    {
        let mut asking = Asking {
            object: self.object,
            actor,
            span,
            clock,
            call: c,
        };
        for _ in rt.forever() {
            let mut waiting = None;
            let answer = self.visit(rt, pass, asking, &mut waiting);
            match waiting {
                None => return answer,
                Some(back) => asking = back,
            }
            thread::yield_now();
        }
        // `forever` does not end
        unreachable!()
    }
}
