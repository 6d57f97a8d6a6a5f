ghost use Rattle.std.specs.Prelude.{◌≡◌, ◌<◌, Err, IsTrue, OnOk, length, map, true};
ghost use Rattle.anti_app.specs.Sound.{is_sound};
ghost use Rattle.anti_proc.specs.Foreign.{is_foreign};
ghost use Rattle.anti_trace.specs.Histories.{Entries};
ghost use Rattle.anti_trace.specs.inner.Living.{IsAt, born_at, lists};
ghost use Rattle.anti_work.specs.inner.Knowing.{AreOf};
ghost use Rattle.anti_work.specs.inner.Rounds.{ends_of};
ghost use Rattle.anti_work.specs.inner.Tries.{AsksFor, IsFed, IsGoRefused, IsWorkerOf, MayFeed};
ghost use Rattle.anti_work.specs.inner.Working.{ComesOf, WorkerStands};

use crate::asking::ask;
use crate::worker::{Awake, Stop, Worker};
use anti_app::App;
use anti_ids::{Copies, NoMemory};
use anti_kind::{Actor, Answer, Asking, Reply};
use anti_object::Object;
use anti_proc::ProcFault;
use anti_shared::Shared;
use anti_trace::Processes;
use std::sync::Wait;

// A process takes the reply of the call that was made for it.
fn feed(
    processes: &mut Processes,
    app: &App,
    object: u32,
    at: usize,
    stamp: u64,
    reply: &Reply,
) -> Result<(), Stop>
    requires sound { IsTrue (is_sound app.now) }
    requires object { object < length (lists processes.old) }
    requires at { at < length (born_at (lists processes.old) object) }
    requires fed { IsAt (MayFeed app.now) (lists processes.old) object at }
    ensures fed { OnOk result (IsFed app.now stamp reply.now (lists processes.old) (lists processes.new) object at) }
    ensures foreign { result ≡ Err Stop.Foreign → is_foreign app.now reply.now ≡ true }
{
    let advance = match processes.get(object, at).advance(app, reply) {
        Ok(advance) => advance,
        Err(ProcFault::NoMemory) => return Err(Stop::NoMemory),
        Err(ProcFault::Foreign) => return Err(Stop::Foreign),
    };
    processes.make_room(object, at)?;
    processes.take_over(object, at, stamp, advance);
    Ok(())
}

// A process is awake.
pub(crate) fn keep_awake(awake: &mut Vec<Awake>, object: u32, at: usize) -> Result<(), NoMemory> {
    awake.push(Awake { object, at })?;
    Ok(())
}

impl Worker {
    // Asks for the next call of a process, which stands at an index among those that were born at an object, and has the process take the
    // reply. It tells whether a call was made.
    pub(crate) fn go<R: Wait>(
        &mut self,
        rt: &R,
        app: &App,
        shared: &[Shared<Object>],
        object: u32,
        at: usize,
    ) -> Result<bool, Stop>
        requires sound { IsTrue (is_sound app.now) }
        requires of { AreOf shared.now self.old.passes.items }
        requires worker { IsWorkerOf app.now self.old }
        requires object { object < length (lists self.old.processes) }
        requires at { at < length (born_at (lists self.old.processes) object) }
        ensures of { AreOf shared.now self.new.passes.items }
        ensures number { self.new.number ≡ self.old.number }
        ensures routes { OnOk result (map ends_of self.new.routes.items ≡ map ends_of self.old.routes.items) }
        ensures tried { (calls : Entries) → WorkerStands app.now self.old calls
            → ComesOf app.now self.old self.new calls
            (IsGoRefused app.now self.new calls object at) result }
    {
        let process = self.processes.get(object, at);
        let Some(asked) = process.next() else {
            return Ok(false);
        };
        // what is not there makes no call
        if asked.object as usize >= shared.len() {
            return Ok(false);
        }
        let asking = Asking {
            object: asked.object,
            actor: Actor::Process(process.birth()),
            span: asked.span,
            clock: process.clock(),
            call: asked.call.copy(self.alloc)?,
        };
        self.go_with(rt, app, shared, object, at, asking)
    }

    // Does so for what the process asks.
    fn go_with<R: Wait>(
        &mut self,
        rt: &R,
        app: &App,
        shared: &[Shared<Object>],
        object: u32,
        at: usize,
        asking: Asking,
    ) -> Result<bool, Stop>
        requires sound { IsTrue (is_sound app.now) }
        requires of { AreOf shared.now self.old.passes.items }
        requires worker { IsWorkerOf app.now self.old }
        requires object { object < length (lists self.old.processes) }
        requires at { at < length (born_at (lists self.old.processes) object) }
        requires asks { IsAt (AsksFor asking) (lists self.old.processes) object at }
        requires there { asking.object < length shared.now }
        ensures of { AreOf shared.now self.new.passes.items }
        ensures number { self.new.number ≡ self.old.number }
        ensures routes { OnOk result (map ends_of self.new.routes.items ≡ map ends_of self.old.routes.items) }
        ensures tried { (calls : Entries) → WorkerStands app.now self.old calls
            → ComesOf app.now self.old self.new calls
            (IsGoRefused app.now self.new calls object at) result }
    {
        match ask(rt, shared, &mut self.passes, asking) {
            Answer::Made {
                place: _,
                stamp,
                reply,
            } => match feed(&mut self.processes, app, object, at, stamp, &reply) {
                Ok(()) => match keep_awake(&mut self.awake, object, at) {
                    Ok(()) => Ok(true),
                    Err(_none) => Err(Stop::NoMemory),
                },
                Err(Stop::NoMemory) => Err(Stop::NoMemory),
                Err(Stop::Foreign) => Err(Stop::Foreign),
            },
            Answer::Refused(_) => Ok(false),
            Answer::NoMemory => Err(Stop::NoMemory),
        }
    }
}
