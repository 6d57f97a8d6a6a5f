ghost use Rattle.std.specs.Prelude.{◌≡◌, ◌<◌, length, position, Some, true, Ok, Err, IfOk, OnOk, OnErr, IsErr, IsTrue, vec_len};
ghost use Rattle.anti_app.specs.declared.app.App.{App};
ghost use Rattle.anti_app.specs.Sound.{is_sound, is_sound_choice};
ghost use Rattle.anti_kind.specs.declared.call.Call.TheVariants.{Ship};
ghost use Rattle.anti_trace.specs.Legal.{bears, carries};
ghost use Rattle.anti_play.specs.Schedule.{bearing, carrying, chosen, clock_of, made_at};
ghost use Rattle.anti_trace.specs.Histories.{Entries};
ghost use Rattle.anti_trace.specs.inner.Living.{Grows, born_at, is_named, lists};
ghost use Rattle.anti_play.specs.inner.Choosing.{IsNextEntry, IsNextOf, IsNextShipment, MakesNext, StopsUnfit};
ghost use Rattle.anti_play.specs.inner.Standing.{AllStand, Chose, IsOutcome, IsSoundWorld, IsWorldOf, MayGrow, StopsBy, WantsRoom, WorldStands, asked_in, outcome_entry};

use crate::choice_call::ChoiceCall;
use anti_app::{App, Choice};
use anti_ids::{Copies, NoMemory};
use anti_kind::{Actor, Asking, Birth, Call, Entry, Machine, Recorded, Refusal, Reply};
use anti_object::Object;
use anti_trace::{Processes, Trail, advance, born};
use std::alloc::Global;

/// The objects of an application with their histories, and its processes with the trail that they left: one moment of a run.
#[derive(Drop)]
pub struct World {
    pub(crate) objects: Vec<Recorded<Object>>,
    pub(crate) processes: Processes,
    pub(crate) trail: Trail,
    // the last stamp of the carrier
    pub(crate) carrier: u64,
    pub(crate) alloc: Global,
}

// An entry that may come next at its object, and for how many entries the history there wants room.
#[derive(Drop)]
struct DueEntry {
    entry: Entry,
    room: u32,
}

// Makes the call of an entry at its object.
fn make_entry(objects: &mut Vec<Recorded<Object>>, due: DueEntry) -> Result<(), NoMemory>
    requires grow { MayGrow objects.old.items due.entry }
    requires room { WantsRoom objects.old.items due }
    ensures stand { (app : App) (before after : Entries)
        → AllStand app objects.old.items before → Grows app before after due.entry
        → OnOk result (AllStand app objects.new.items after) }
    ensures err { (app : App) (before : Entries)
        → AllStand app objects.old.items before
        → OnErr result (AllStand app objects.new.items before) }
{
    let at = due.entry.object as usize;
    objects[at].make(due.room, due.entry)
}

// Gives up what there is no memory for.
fn give_up<T: Drop>(_value: T) -> Result<bool, NoMemory>
    ensures { IsErr result }
{
    Err(NoMemory)
}

impl World {
    // The entry that what is asked makes, or why it makes none. An object that is not there is not ready. Stamps are never spent, since
    // none is above the number of the entries.
    fn next_entry(&self, asking: Asking) -> Result<Result<DueEntry, Refusal>, NoMemory>
        ensures outcome { (app : App) (trace : Entries) → IsTrue (is_sound app)
            → WorldStands app self.now trace → asking.clock ≡ clock_of asking.actor trace
            → IfOk result (λ asked. IsOutcome app trace (asked_in trace asking) (outcome_entry asked)) }
        ensures room { IfOk result (λ asked. IfOk asked (WantsRoom self.now.objects.items)) }
    {
        let Some(recorded) = self.objects.get(asking.object as usize) else {
            return Ok(Err(Refusal::NotYet));
        };
        let room = match recorded.judge(&asking) {
            Ok(room) => room,
            Err(refusal) => return Ok(Err(refusal)),
        };
        let reply = recorded.due(&asking.call)?;
        let entry = recorded.entry(0, asking, reply);
        Ok(Ok(DueEntry { entry, room }))
    }

    // Makes a call by which a process is born at an object.
    pub(crate) fn bear(&mut self, app: &App, object: u32, call: Call) -> Result<bool, NoMemory>
        requires sound { IsTrue (is_sound app.now) }
        requires born { bears call ≡ true }
        requires world { IsWorldOf app.now self.old }
        ensures { (trace : Entries) → WorldStands app.now self.old trace
            → Chose app.now trace (made_at app.now trace (bearing trace object call))
            result self.new }
    {
        let asking = Asking {
            object,
            actor: Actor::Newborn,
            span: 1,
            clock: 0,
            call,
        };
        let Ok(due) = self.next_entry(asking)? else {
            return Ok(false);
        };
        let object = due.entry.object;
        self.processes.reserve(object)?;
        let process = born(self.alloc, app, &due.entry)?;
        match make_entry(&mut self.objects, due) {
            Ok(()) => {
                self.processes.put(object, process);
                Ok(true)
            }
            Err(NoMemory) => give_up(process),
        }
    }

    // Makes a call of the carrier at an object.
    pub(crate) fn carry(&mut self, object: u32, call: Call) -> Result<bool, NoMemory>
        requires carried { carries call ≡ true }
        requires world { IsSoundWorld self.old }
        ensures { (app : App) (trace : Entries) → IsTrue (is_sound app)
            → WorldStands app self.old trace
            → Chose app trace (made_at app trace (carrying trace object call)) result self.new }
    {
        let asking = Asking {
            object,
            actor: Actor::Carrier(0),
            span: 0,
            clock: self.carrier,
            call,
        };
        let Ok(due) = self.next_entry(asking)? else {
            return Ok(false);
        };
        let stamp = due.entry.stamp;
        make_entry(&mut self.objects, due)?;
        self.carrier = stamp;
        Ok(true)
    }

    // Makes the next shipment of a store to a region: it is ready, and fits, since it needs no units.
    pub(crate) fn ship(
        &mut self,
        store: u32,
        region: u32,
        version: u64,
        part: u32,
    ) -> Result<(), NoMemory>
        requires store { store < vec_len self.old.objects }
        requires world { IsSoundWorld self.old }
        requires next { IsNextShipment self.old.objects.items store region version part }
        ensures made { (app : App) (trace : Entries) → IsTrue (is_sound app)
            → WorldStands app self.old trace
            → OnOk result (Chose app trace (made_at app trace (carrying trace store (Ship region version part))) (Ok true) self.new) }
        ensures kept { (app : App) (trace : Entries) → WorldStands app self.old trace
            → OnErr result (WorldStands app self.new trace) }
    {
        let asking = Asking {
            object: store,
            actor: Actor::Carrier(0),
            span: 0,
            clock: self.carrier,
            call: Call::Ship {
                region,
                version,
                part,
            },
        };
        let recorded = &self.objects[store as usize];
        let room = recorded.machine().owed(); // it needs no units of its own
        let entry = recorded.entry(0, asking, Reply::Moved);
        let stamp = entry.stamp;
        make_entry(&mut self.objects, DueEntry { entry, room })?;
        self.carrier = stamp;
        Ok(())
    }

    // Makes the next call of a process, which stands at a place among those that were born at its object. One that has ended, or waits,
    // makes none.
    pub(crate) fn go_on(&mut self, app: &App, birth: Birth, at: usize) -> Result<bool, NoMemory>
        requires sound { IsTrue (is_sound app.now) }
        requires world { IsWorldOf app.now self.old }
        requires object { birth.object < length (lists self.old.processes) }
        requires found { position (is_named birth) (born_at (lists self.old.processes) birth.object)
            ≡ Some at }
        ensures chose { MakesNext app.now self.old birth result self.new }
        ensures ended { StopsUnfit app.now self.old birth result self.new }
    {
        let process = self.processes.get(birth.object, at);
        let Some(asked) = process.next() else {
            return Ok(false);
        };
        let asking = Asking {
            object: asked.object,
            actor: Actor::Process(birth),
            span: asked.span,
            clock: process.clock(),
            call: asked.call.copy(self.alloc)?,
        };
        self.make_next(app, birth, at, asking)
    }

    // The same of a process that asks for this. Where the call is ready and does not fit it ends.
    fn make_next(
        &mut self,
        app: &App,
        birth: Birth,
        at: usize,
        asking: Asking,
    ) -> Result<bool, NoMemory>
        requires sound { IsTrue (is_sound app.now) }
        requires world { IsWorldOf app.now self.old }
        requires object { birth.object < length (lists self.old.processes) }
        requires found { position (is_named birth) (born_at (lists self.old.processes) birth.object)
            ≡ Some at }
        requires next { IsNextOf self.old birth at asking }
        ensures chose { MakesNext app.now self.old birth result self.new }
        ensures ended { StopsUnfit app.now self.old birth result self.new }
    {
        let object = asking.object;
        match self.next_entry(asking)? {
            Ok(due) => self.go_past(app, birth, at, due),
            Err(Refusal::NotYet) => Ok(false),
            Err(Refusal::Full { .. }) => {
                self.processes.end(birth.object, at, object);
                Ok(false)
            }
            // `next_entry` ensures that stamps are never spent
            Err(Refusal::Spent { .. }) => unreachable!(),
        }
    }

    // Makes the next entry of a process, which goes past it and leaves its footprint.
    fn go_past(
        &mut self,
        app: &App,
        birth: Birth,
        at: usize,
        due: DueEntry,
    ) -> Result<bool, NoMemory>
        requires sound { IsTrue (is_sound app.now) }
        requires world { IsWorldOf app.now self.old }
        requires object { birth.object < length (lists self.old.processes) }
        requires found { position (is_named birth) (born_at (lists self.old.processes) birth.object)
            ≡ Some at }
        requires entry { IsNextEntry app.now self.old birth at due.entry }
        requires room { WantsRoom self.old.objects.items due }
        ensures chose { MakesNext app.now self.old birth result self.new }
        ensures ended { StopsUnfit app.now self.old birth result self.new }
    {
        let process = self.processes.get(birth.object, at);
        let advance = advance(app, process, &due.entry)?;
        let carried = self.trail.prepare(self.alloc, due.entry.object, process)?;
        self.processes.make_room(birth.object, at)?;
        let object = due.entry.object;
        let stamp = due.entry.stamp;
        make_entry(&mut self.objects, due)?;
        self.processes.take_over(birth.object, at, stamp, advance);
        self.trail.put(object, carried);
        Ok(true)
    }

    // Makes the next call of the process that was born by an entry.
    fn go(&mut self, app: &App, birth: Birth) -> Result<bool, NoMemory>
        requires sound { IsTrue (is_sound app.now) }
        requires world { IsWorldOf app.now self.old }
        ensures chose { MakesNext app.now self.old birth result self.new }
        ensures ended { StopsUnfit app.now self.old birth result self.new }
    {
        match self.processes.find(birth) {
            Some(at) => self.go_on(app, birth, at),
            None => Ok(false),
        }
    }

    /// Makes the entry that a choice other than `finish` asks for, and tells whether there was one. A choice that makes none is a wait.
    /// A process ends where it goes on with a call that is ready and does not fit. Where there is no memory the world stands for what it
    /// stood for.
    pub fn choose(&mut self, app: &App, choice: &Choice) -> Result<bool, NoMemory>
        requires sound { IsTrue (is_sound app.now) }
        requires named { IsTrue (is_sound_choice app.now choice.now) }
        requires one { choice.now ≡ Choice.Finish → ⊥ }
        requires world { IsWorldOf app.now self.old }
        ensures chose { (trace : Entries) → WorldStands app.now self.old trace
            → Chose app.now trace (chosen app.now trace choice.now) result self.new }
        ensures ended { (trace : Entries) → WorldStands app.now self.old trace
            → OnOk result (StopsBy app.now trace choice.now (lists self.new.processes)) }
    {
        match ChoiceCall::of(app, choice) {
            ChoiceCall::Bears(object, call) => self.bear(app, object, call),
            ChoiceCall::Carries(object, call) => self.carry(object, call),
            ChoiceCall::GoesOn(birth) => self.go(app, birth),
        }
    }
}
