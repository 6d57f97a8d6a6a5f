ghost use Rattle.std.specs.Prelude.{◌≡◌, ◌<◌, Err, IsTrue, None, OnOk, length, map, true};
ghost use Rattle.anti_app.specs.Sound.{is_sound};
ghost use Rattle.anti_proc.specs.Tasks.{task_of};
ghost use Rattle.anti_trace.specs.Histories.{Entries};
ghost use Rattle.anti_trace.specs.Legal.{bears};
ghost use Rattle.anti_trace.specs.inner.Living.{lists};
ghost use Rattle.anti_play.specs.Schedule.{bearing};
ghost use Rattle.anti_work.specs.inner.Knowing.{AreOf};
ghost use Rattle.anti_work.specs.inner.Rounds.{ends_of};
ghost use Rattle.anti_work.specs.inner.Tries.{BearsOwn, HasBorn, IsWorkerOf};
ghost use Rattle.anti_work.specs.inner.Working.{ComesOf, IsRefusedAt, WorkerStands};

use crate::asking::ask;
use crate::going::keep_awake;
use crate::worker::{Stop, Worker};
use anti_app::App;
use anti_ids::Copies;
use anti_kind::{Actor, Answer, Asking, Birth, Call, Entry};
use anti_object::Object;
use anti_proc::{ProcFault, Process};
use anti_shared::Shared;
use anti_trace::Processes;
use std::alloc::Global;
use std::sync::Wait;

// The process that an entry starts is put behind those that were born at its object.
fn add(processes: &mut Processes, alloc: Global, app: &App, entry: &Entry) -> Result<(), Stop>
    requires sound { IsTrue (is_sound app.now) }
    requires there { entry.now.object < length (lists processes.old) }
    ensures born { OnOk result (HasBorn app.now entry.now (lists processes.old) (lists processes.new)) }
    ensures foreign { result ≡ Err Stop.Foreign → task_of app.now entry.now ≡ None }
{
    processes.reserve(entry.object)?;
    let process = match Process::born(alloc, app, entry) {
        Ok(process) => process,
        Err(ProcFault::NoMemory) => return Err(Stop::NoMemory),
        Err(ProcFault::Foreign) => return Err(Stop::Foreign),
    };
    processes.put(entry.object, process);
    Ok(())
}

impl Worker {
    // Asks for a call by which a process is born: a delivery to a service of the worker, or a pull of one of its subscriptions. The process
    // that it starts is the worker's. It tells whether the call was made.
    pub(crate) fn bear<R: Wait>(
        &mut self,
        rt: &R,
        app: &App,
        shared: &[Shared<Object>],
        object: u32,
        call: Call,
    ) -> Result<bool, Stop>
        requires sound { IsTrue (is_sound app.now) }
        requires of { AreOf shared.now self.old.passes.items }
        requires worker { IsWorkerOf app.now self.old }
        requires bears { bears call ≡ true }
        requires own { BearsOwn app.now self.old.number object call }
        ensures of { AreOf shared.now self.new.passes.items }
        ensures number { self.new.number ≡ self.old.number }
        ensures routes { OnOk result (map ends_of self.new.routes.items ≡ map ends_of self.old.routes.items) }
        ensures tried { (calls : Entries) → WorkerStands app.now self.old calls
            → ComesOf app.now self.old self.new calls
            (IsRefusedAt app.now self.new calls (bearing calls object call)) result }
    {
        // what is not there makes no call
        if object as usize >= shared.len() {
            return Ok(false);
        }
        let again = call.copy(self.alloc)?;
        let asking = Asking {
            object,
            actor: Actor::Newborn,
            span: 1,
            clock: 0,
            call,
        };
        match ask(rt, shared, &mut self.passes, asking) {
            Answer::Made {
                place,
                stamp,
                reply,
            } => {
                let entry = Entry {
                    stamp,
                    object,
                    place,
                    seat: 0,
                    actor: Actor::Process(Birth { object, place }),
                    span: 1,
                    call: again,
                    reply,
                };
                let at = self.processes.born_count(object);
                match add(&mut self.processes, self.alloc, app, &entry) {
                    Ok(()) => match keep_awake(&mut self.awake, object, at) {
                        Ok(()) => Ok(true),
                        Err(_none) => Err(Stop::NoMemory),
                    },
                    Err(Stop::NoMemory) => Err(Stop::NoMemory),
                    Err(Stop::Foreign) => Err(Stop::Foreign),
                }
            }
            Answer::Refused(_) => Ok(false),
            Answer::NoMemory => Err(Stop::NoMemory),
        }
    }
}
