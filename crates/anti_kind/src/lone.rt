ghost use Rattle.std.specs.Prelude.{◌≡◌, ℕ, ◌+◌, ◌-◌, ◌^◌, min, [], IfErr, IfOk, Some};
ghost use Rattle.anti_kind.specs.Objects.{IsLegal};
ghost use Rattle.anti_kind.specs.Shipments.{IsShip};
ghost use Rattle.anti_kind.specs.Machines.{StandsFor};
ghost use Rattle.anti_kind.specs.Ports.{Answered};
ghost use Rattle.anti_kind.specs.Lones.{AreOwn, IsNumbered, lone_start, lone_view};

use crate::actor::Actor;
use crate::asking::Asking;
use crate::call::Call;
use crate::entry::History;
use crate::machine::Machine;
use crate::port::{Answer, Port};
use crate::recorded::Recorded;
use crate::refusal::Refusal;
use anti_ids::NoMemory;
use std::alloc::Global;
use std::marker::Model;

/// A port over one object, for one thread: the object's state, and the history of the calls that were made on it.
pub struct Lone<M: Machine> {
    object: u32,
    recorded: Recorded<M>,
    visits: u64,
}

impl<M: Machine> Model for Lone<M> {
    ghost use Rattle.anti_kind.specs.Lones.{Alone, IsLone};

    ghost Value = { Alone M };

    ghost view = { λ l. record { object = l.object; machine = l.recorded.machine; history = l.recorded.history; visits = l.visits } };

    ghost invariant = { λ l. IsLone (M.start l.recorded.machine) l.object l.recorded.history };
}

// By hand, so that no caller sees the fields.
impl<M: Machine + Drop> Drop for Lone<M> {
    fn drop(self) {
        let Lone {
            object: _,
            recorded,
            visits: _,
        } = self;
        drop(recorded);
    }
}

impl<M: Machine> Lone<M> {
    /// A port over the object of this number, which is at its start: no call was made on it. There is then memory for the entries
    /// of all calls that the start reserves units for. The start is given back where there is none.
    pub fn new(alloc: Global, object: u32, start: M) -> Result<Lone<M>, (M, NoMemory)>
        requires fresh { StandsFor (M.start start) (M.Stands start) [] }
        requires numbered { IsNumbered (M.start start) object }
        ensures start { IfOk result (λ l. lone_start M.start l object ≡ Some (M.start start)) }
        ensures view { IfOk result (λ l. lone_view l object ≡ record { seen = []; made = []; visits = 0 }) }
        ensures alone { IfOk result (λ l. l ≡ record { object = object; machine = start; history = []; visits = 0 }) }
        ensures err { IfErr result (λ e. e.0 ≡ start) }
    {
        match Recorded::new(alloc, start) {
            Ok(recorded) => Ok(Lone {
                object,
                recorded,
                visits: 0,
            }),
            Err(refused) => Err(refused),
        }
    }

    /// The calls that were made on the object. It takes no memory.
    pub fn history(&self) -> &History
        ensures items { result.now.items ≡ self.now.history }
        ensures legal { IsLegal (M.start self.now.machine) self.now.history }
        ensures own { AreOwn self.now.object self.now.history }
        ensures numbered { IsNumbered (M.start self.now.machine) self.now.object }
    {
        self.recorded.history()
    }
}

impl<M: Machine> Port for Lone<M> {
    type Rest = ();

    ghost start = { lone_start M.start };

    ghost view = { lone_view };

    ghost rest = { λ _. tt };

    fn has(&self, object: u32) -> bool {
        object == self.object
    }

    /// As every port's call. The visits are the number of calls on the object.
    fn call(&mut self, object: u32, actor: Actor, span: u32, clock: u64, c: Call) -> Answer
        ensures answer { Answered (lone_start M.start self.old object) (record { object = object; actor = actor; span = span; clock = clock; call = c }) (lone_view self.old object) (lone_view self.new object) result }
        ensures others { (o : ℕ) → (o ≡ object → ⊥) → lone_view self.new o ≡ lone_view self.old o }
        ensures fixed { (o : ℕ) → lone_start M.start self.new o ≡ lone_start M.start self.old o }
        ensures ship { IsShip c → result ≡ Answer.NoMemory → ⊥ }
        ensures visits { object ≡ self.old.object → self.new.visits ≡ min (self.old.visits + 1) (2 ^ 64 - 1) }
    {
        if object != self.object {
            return Answer::Refused(Refusal::NotYet);
        }
        self.visits = self.visits.saturating_add(1);
        let asking = Asking {
            object,
            actor,
            span,
            clock,
            call: c,
        };
        self.recorded.ask(0, asking)
    }
}
