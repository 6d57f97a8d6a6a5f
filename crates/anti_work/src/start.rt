ghost use Rattle.std.specs.Prelude.{IfOk, IsTrue, []};
ghost use Rattle.anti_app.specs.Sound.{is_sound};
ghost use Rattle.anti_work.specs.inner.Knowing.{KnowsCalls};
ghost use Rattle.anti_work.specs.inner.Rounds.{IsNewWorker};
ghost use Rattle.anti_work.specs.inner.Starting.{HasWorked, MayWork};

use crate::done::Done;
use crate::gate::Gate;
use crate::ships::routes;
use crate::worker::Worker;
use anti_app::{App, object_count};
use anti_ids::NoMemory;
use anti_object::Object;
use anti_shared::{Pass, Shared};
use anti_trace::Processes;
use std::alloc::Global;
use std::sync::Wait;

/// What travels to the thread of a worker: its number, counted from 1, a pass for each object, and the allocator.
#[derive(Drop)]
pub struct Start {
    pub(crate) number: u32,
    pub(crate) passes: Vec<Pass<Object>>,
    pub(crate) alloc: Global,
}

impl Start {
    // The worker that starts so.
    fn worker(self, app: &App) -> Result<Worker, NoMemory>
        requires sound { IsTrue (is_sound app.now) }
        requires knows { KnowsCalls app.now self.number self.passes.items [] }
        ensures { IfOk result (IsNewWorker app.now self) }
    {
        let Start {
            number,
            passes,
            alloc,
        } = self;
        let processes = Processes::new(alloc, object_count(app) as usize)?;
        let routes = routes(alloc, app, number)?;
        Ok(Worker {
            number,
            passes,
            processes,
            clock: 0,
            routes,
            awake: Vec::new(alloc),
            alloc,
        })
    }

    // Does the rounds of a worker, until it can do no more. It gives its passes back.
    pub(crate) fn work<R: Wait, G: Gate>(
        self,
        rt: &R,
        app: &App,
        shared: &[Shared<Object>],
        gate: &G,
    ) -> Result<Done, NoMemory>
        requires sound { IsTrue (is_sound app.now) }
        requires may { MayWork app.now shared.now self }
        ensures { IfOk result (HasWorked app.now shared.now self.number) }
    {
        let worker = self.worker(app)?;
        worker.rounds(rt, app, shared, gate)
    }
}
