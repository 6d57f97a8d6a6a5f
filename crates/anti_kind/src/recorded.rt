ghost use Rattle.std.specs.Prelude.{◌≡◌, ◌+◌, ◌-◌, ◌^◌, ◌<◌, max, true, false, [], ◌∷◌, ◌++◌, length, IfErr, IfOk, OnOk, OnErr, IsOk};
ghost use Rattle.anti_kind.specs.Objects.{Follows, IsLegal, Start, due, fits, last_stamp, need, owed, ready};
ghost use Rattle.anti_kind.specs.Shipments.{IsShip};
ghost use Rattle.anti_kind.specs.Machines.{StandsFor};
ghost use Rattle.anti_kind.specs.Entries.{entry_of};
ghost use Rattle.anti_kind.specs.Ports.{Goes, IsRefusal};
ghost use Rattle.anti_kind.specs.Records.{Gives};

use crate::actor::Birth;
use crate::asking::Asking;
use crate::call::{Call, Reply};
use crate::entry::{Entry, History};
use crate::machine::Machine;
use crate::port::Answer;
use crate::refusal::Refusal;
use anti_ids::{Copies, List, MOST_UNITS, NoMemory};
use std::alloc::Global;
use std::marker::Model;

/// A machine with the history of the calls that were made on it. It keeps the last stamp, and room in the history for the
/// entries of all calls that units are reserved for.
pub struct Recorded<M: Machine> {
    machine: M,
    history: History,
    // the last stamp of the history
    last: u64,
}

impl<M: Machine> Model for Recorded<M> {
    ghost use Rattle.anti_kind.specs.Records.{Record, IsRecorded};

    ghost Value = { Record M };

    ghost view = { λ r. record { machine = r.machine; history = r.history.items } };

    ghost invariant = { λ r. IsRecorded (M.start r.machine) (M.Stands r.machine) r.last r.history };
}

// By hand, so that no caller sees the fields.
impl<M: Machine + Drop> Drop for Recorded<M> {
    fn drop(self) {
        let Recorded {
            machine,
            history,
            last: _,
        } = self;
        drop(machine);
        drop(history);
    }
}

impl<M: Machine> Recorded<M> {
    /// A machine that is at its start: no call was made on it. Without memory for the room of its history it is given back.
    pub fn new(alloc: Global, start: M) -> Result<Recorded<M>, (M, NoMemory)>
        requires { StandsFor (M.start start) (M.Stands start) [] }
        ensures ok { IfOk result (λ r. r ≡ record { machine = start; history = [] }) }
        ensures err { IfErr result (λ e. e.0 ≡ start) }
    {
        match Recorded::of(start, List::new(alloc)) {
            Ok(recorded) => Ok(recorded),
            Err((start, _history, fault)) => Err((start, fault)),
        }
    }

    /// A machine with the calls that were made on it: it stands for them. Without memory for the room of its history both are given back
    /// as they were.
    pub fn of(machine: M, mut history: History) -> Result<Recorded<M>, (M, History, NoMemory)>
        requires { StandsFor (M.start machine) (M.Stands machine) history.items }
        ensures ok { IfOk result (λ r. r ≡ record { machine = machine; history = history.items }) }
        ensures machine { IfErr result (λ e. e.0 ≡ machine) }
        ensures history { IfErr result (λ e. e.1 ≡ history) }
    {
        let last = stamp_of_last(history.as_slice());
        if history.reserve(machine.owed()).is_err() {
            return Err((machine, history, NoMemory));
        }
        Ok(Recorded {
            machine,
            history,
            last,
        })
    }

    /// The machine, which stands for the history. It takes no memory.
    pub fn machine(&self) -> &M
        ensures machine { result.now ≡ self.now.machine }
        ensures stands { StandsFor (M.start self.now.machine) (M.Stands self.now.machine) self.now.history }
    {
        &self.machine
    }

    /// The calls that were made. It takes no memory.
    pub fn history(&self) -> &History
        ensures items { result.now.items ≡ self.now.history }
        ensures legal { IsLegal (M.start self.now.machine) self.now.history }
    {
        &self.history
    }

    /// The machine and the calls that were made. It takes no memory.
    pub fn into_parts(self) -> (M, History)
        ensures machine { result.0 ≡ self.machine }
        ensures history { result.1.items ≡ self.history }
    {
        let Recorded {
            machine,
            history,
            last: _,
        } = self;
        (machine, history)
    }

    /// Whether what is asked can be done now, or why it can't. Where it can, the history wants room for so many entries: the units that are
    /// owed and those that it needs. It takes no memory.
    pub fn judge(&self, asking: &Asking) -> Result<u32, Refusal>
        ensures goes { OnOk result (Goes (M.start self.now.machine) self.now.history asking.now) }
        ensures room { IfOk result (λ room. room
            ≡ owed (M.start self.now.machine) self.now.history + need (M.start self.now.machine) self.now.history asking.now.call) }
        ensures refused { IfErr result (λ refusal. IsRefusal (M.start self.now.machine) self.now.history asking.now refusal) }
        ensures legal { IsLegal (M.start self.now.machine) self.now.history }
    {
        if !self.machine.ready(&asking.call) {
            return Err(Refusal::NotYet);
        }
        let held = self.machine.held();
        let owed = self.machine.owed();
        let need = self.machine.need(&asking.call);
        if need > MOST_UNITS - (held + owed) {
            return Err(Refusal::Full { held, owed, need });
        }
        let clock = asking.clock.max(self.last);
        if clock == u64::MAX {
            return Err(Refusal::Spent { clock });
        }
        Ok(owed + need)
    }

    /// The reply that a call is due, which is ready and fits. Of a `Ship` it takes no memory.
    pub fn due(&self, call: &Call) -> Result<Reply, NoMemory>
        requires ready { ready (M.start self.now.machine) self.now.history call.now ≡ true }
        requires fits { fits (M.start self.now.machine) self.now.history call.now ≡ true }
        ensures due { IfOk result (λ r. r ≡ due (M.start self.now.machine) self.now.history call.now) }
        ensures ship { IsShip call.now → IsOk result }
    {
        self.machine.due(call)
    }

    /// The entry of what is asked, with the given reply and the number of the pass that makes it: it has the next place, and the
    /// stamp after the two clocks, the asker's and the object's. It takes no memory.
    pub fn entry(&self, seat: u32, asking: Asking, reply: Reply) -> Entry
        requires { max asking.clock (last_stamp self.now.history) < 2 ^ 64 - 1 }
        ensures { result ≡ entry_of asking seat (length self.now.history + 1) (max asking.clock (last_stamp self.now.history) + 1) reply }
    {
        let place = self.history.len() as u32 + 1;
        let birth = Birth {
            object: asking.object,
            place,
        };
        Entry {
            stamp: asking.clock.max(self.last) + 1,
            object: asking.object,
            place,
            seat,
            actor: asking.actor.named(birth),
            span: asking.span,
            call: asking.call,
            reply,
        }
    }

    /// Makes the call of an entry that may come next, with room for so many entries as `judge` tells. Without memory nothing was made. A
    /// `Ship` takes no memory.
    pub fn make(&mut self, room: u32, entry: Entry) -> Result<(), NoMemory>
        requires follows { Follows (M.start self.old.machine) self.old.history entry }
        requires room { room
            ≡ owed (M.start self.old.machine) self.old.history + need (M.start self.old.machine) self.old.history entry.call }
        ensures made { OnOk result (self.new.history ≡ self.old.history ++ entry ∷ []) }
        ensures err { OnErr result (self.new.history ≡ self.old.history) }
        ensures legal { IsLegal (M.start self.old.machine) self.new.history }
        ensures start { M.start self.new.machine ≡ M.start self.old.machine }
        ensures ship { IsShip entry.call → IsOk result }
    {
        self.history.reserve(room)?;
        self.machine.apply(&entry.call, &entry.reply)?;
        self.last = entry.stamp;
        self.history.put(entry);
        Ok(())
    }

    // Makes what is asked and goes, with so much room for entries as `judge` tells, or finds no memory.
    fn go(&mut self, seat: u32, asking: Asking, room: u32) -> Answer
        requires goes { Goes (M.start self.old.machine) self.old.history asking }
        requires room { room
            ≡ owed (M.start self.old.machine) self.old.history + need (M.start self.old.machine) self.old.history asking.call }
        requires legal { IsLegal (M.start self.old.machine) self.old.history }
        ensures gives { Gives (M.start self.old.machine) self.old.history seat asking self.new.history result }
        ensures start { M.start self.new.machine ≡ M.start self.old.machine }
        ensures legal { IsLegal (M.start self.old.machine) self.new.history }
        ensures waits { result ≡ Answer.Refused Refusal.NotYet → ⊥ }
        ensures ship { IsShip asking.call → result ≡ Answer.NoMemory → ⊥ }
    {
        let Ok(reply) = self.due(&asking.call) else {
            return Answer::NoMemory;
        };
        // the entry's own
        let Ok(due) = reply.copy(self.history.allocator()) else {
            return Answer::NoMemory;
        };
        let entry = self.entry(seat, asking, due);
        let place = entry.place;
        let stamp = entry.stamp;
        let Ok(()) = self.make(room, entry) else {
            return Answer::NoMemory;
        };
        Answer::Made {
            place,
            stamp,
            reply,
        }
    }

    /// Makes what is asked of the object, under the number of the pass that asks (0 for none), or says why it does not. What is not
    /// ready is given back. Of a `Ship` it takes no memory.
    pub fn offer(&mut self, seat: u32, asking: Asking) -> Result<Answer, Asking>
        ensures gives { IfOk result (λ answer. Gives (M.start self.old.machine) self.old.history seat asking self.new.history answer) }
        ensures waits { IfOk result (λ answer. answer ≡ Answer.Refused Refusal.NotYet → ⊥) }
        ensures back { IfErr result (λ back. back ≡ asking) }
        ensures not_yet { OnErr result (ready (M.start self.old.machine) self.old.history asking.call ≡ false) }
        ensures same { OnErr result (self.new.history ≡ self.old.history) }
        ensures start { M.start self.new.machine ≡ M.start self.old.machine }
        ensures before { IsLegal (M.start self.old.machine) self.old.history }
        ensures after { IsLegal (M.start self.old.machine) self.new.history }
        ensures ship { IsShip asking.call → IfOk result (λ answer. answer ≡ Answer.NoMemory → ⊥) }
    {
        match self.judge(&asking) {
            Ok(room) => Ok(self.go(seat, asking, room)),
            Err(Refusal::NotYet) => Err(asking),
            Err(refusal) => Ok(Answer::Refused(refusal)),
        }
    }

    /// Makes what is asked of the object, under the number of the pass that asks (0 for none), or says why it does not. Of a `Ship` it
    /// takes no memory.
    pub fn ask(&mut self, seat: u32, asking: Asking) -> Answer
        ensures gives { Gives (M.start self.old.machine) self.old.history seat asking self.new.history result }
        ensures start { M.start self.new.machine ≡ M.start self.old.machine }
        ensures before { IsLegal (M.start self.old.machine) self.old.history }
        ensures after { IsLegal (M.start self.old.machine) self.new.history }
        ensures ship { IsShip asking.call → result ≡ Answer.NoMemory → ⊥ }
    {
        match self.offer(seat, asking) {
            Ok(answer) => answer,
            Err(_) => Answer::Refused(Refusal::NotYet),
        }
    }
}

// The last stamp of a legal history, which is that of its last entry: 0 where there is none.
fn stamp_of_last(entries: &[Entry]) -> u64
    requires { (start : Start) × IsLegal start entries.now }
    ensures { result ≡ last_stamp entries.now }
{
    match entries {
        [] => 0,
        [.., last] => last.stamp,
    }
}
