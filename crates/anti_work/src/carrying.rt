ghost use Rattle.std.specs.Prelude.{◌≡◌, OnOk, map, true};
ghost use Rattle.anti_kind.specs.declared.actor.Actor.TheVariants.{Carrier};
ghost use Rattle.anti_app.specs.declared.app.App.{App};
ghost use Rattle.anti_trace.specs.Histories.{Entries};
ghost use Rattle.anti_trace.specs.Legal.{carries};
ghost use Rattle.anti_play.specs.Schedule.{asking_at};
ghost use Rattle.anti_work.specs.inner.Knowing.{AreOf};
ghost use Rattle.anti_work.specs.inner.Rounds.{ends_of};
ghost use Rattle.anti_work.specs.inner.Working.{ComesOf, IsRefusedAt, WorkerStands};

use crate::asking::ask;
use crate::noting::{first_part, note};
use crate::worker::{Stop, Worker};
use anti_kind::{Actor, Answer, Asking, Call};
use anti_object::Object;
use anti_shared::Shared;
use std::sync::Wait;

impl Worker {
    // Asks for a call of the worker's carrier, and notes which first part was shipped. It tells whether the call was made.
    pub(crate) fn carry<R: Wait>(
        &mut self,
        rt: &R,
        shared: &[Shared<Object>],
        object: u32,
        call: Call,
    ) -> Result<bool, Stop>
        requires of { AreOf shared.now self.old.passes.items }
        requires carries { carries call ≡ true }
        ensures of { AreOf shared.now self.new.passes.items }
        ensures number { self.new.number ≡ self.old.number }
        ensures routes { OnOk result (map ends_of self.new.routes.items ≡ map ends_of self.old.routes.items) }
        ensures tried { (app : App) (calls : Entries) → WorkerStands app self.old calls
            → ComesOf app self.old self.new calls
            (IsRefusedAt app self.new calls (asking_at calls object (Carrier self.old.number) 0 call)) result }
    {
        // what is not there makes no call
        if object as usize >= shared.len() {
            return Ok(false);
        }
        let first = first_part(&call);
        let asking = Asking {
            object,
            actor: Actor::Carrier(self.number),
            span: 0,
            clock: self.clock,
            call,
        };
        match ask(rt, shared, &mut self.passes, asking) {
            Answer::Made {
                place: _,
                stamp,
                reply: _,
            } => {
                self.clock = stamp;
                match note(&mut self.routes, object, first) {
                    Ok(()) => Ok(true),
                    Err(_none) => Err(Stop::NoMemory),
                }
            }
            Answer::Refused(_) => Ok(false),
            Answer::NoMemory => Err(Stop::NoMemory),
        }
    }
}
