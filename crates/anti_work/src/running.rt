ghost use Rattle.std.specs.Prelude.{◌≡◌, ℕ, ◌<◌, All, IfOk, IsTrue, Result, map, slice_index_or, vec_len};
ghost use Rattle.anti_ids.specs.declared.memory.NoMemory.{NoMemory as Fault};
ghost use Rattle.anti_app.specs.Sound.{is_sound};
ghost use Rattle.anti_trace.specs.Histories.{Entries};
ghost use Rattle.anti_play.specs.inner.Standing.{WorldStands};
ghost use Rattle.anti_work.specs.Workers.{IsWorkersRun};
ghost use Rattle.anti_work.specs.declared.done.Done.{Done as DoneView};
ghost use Rattle.anti_work.specs.declared.start.Start.{Start as StartView};
ghost use Rattle.anti_work.specs.inner.Firsts.{AreStartsOf, HaveWorked, given};
ghost use Rattle.anti_work.specs.inner.Starting.{HasWorked, MayWork};

use crate::done::Done;
use crate::gate::Gate;
use crate::gathering::close_all;
use crate::sharing::{share, starts};
use crate::start::Start;
use anti_app::App;
use anti_ids::NoMemory;
use anti_object::Object;
use anti_play::World;
use anti_shared::Shared;
use std::alloc::Global;
use std::sync::Wait;
use std::thread;
use std::thread::Threads;

// Each worker does its rounds, on a thread of its own where one can be made.
fn work_each<R: Threads + Wait + Sync, G: Gate + Sync>(
    rt: &R,
    app: &App,
    shared: &[Shared<Object>],
    gate: &G,
    starts: Vec<Start>,
) -> Result<Vec<Result<Done, NoMemory>>, NoMemory>
    requires sound { IsTrue (is_sound app.now) }
    requires may { All (MayWork app.now shared.now) starts.items }
    ensures len { IfOk result (λ all. vec_len all ≡ vec_len starts) }
    ensures each { IfOk result (λ all. (w : ℕ) (start : StartView) (back : Result DoneView Fault) → w < vec_len starts
        → IfOk (slice_index_or all.items w back) (HasWorked app.now shared.now (slice_index_or starts.items w start).number)) }
{
    let results = thread::map_vec(
        rt,
        starts,
        &|start: Start| -> Result<Done, NoMemory>
            requires { IsTrue (is_sound app.now) × MayWork app.now shared.now start }
            ensures { IfOk result (HasWorked app.entry.now shared.entry.now start.number) }
        { start.work(rt, app, shared, gate) },
    )?;
    Ok(results)
}

// What all workers gave back, if none of them was out of memory.
fn all_given(alloc: Global, mut results: Vec<Result<Done, NoMemory>>) -> Result<Vec<Done>, NoMemory>
    ensures len { IfOk result (λ all. vec_len all ≡ vec_len results) }
    ensures items { IfOk result (λ all. results.items ≡ map given all.items) }
{
    results.reverse();
    let mut all = Vec::new(alloc);
    while let Some(back) = results.pop() {
        all.push(back?)?;
    }
    Ok(all)
}

// All workers do their rounds.
fn work_all<R: Threads + Wait + Sync, G: Gate + Sync>(
    rt: &R,
    alloc: Global,
    app: &App,
    shared: &[Shared<Object>],
    gate: &G,
    starts: Vec<Start>,
) -> Result<Vec<Done>, NoMemory>
    requires sound { IsTrue (is_sound app.now) }
    requires starts { AreStartsOf app.now shared.now starts.items }
    ensures len { IfOk result (λ all. vec_len all ≡ vec_len starts) }
    ensures worked { IfOk result (λ all. HaveWorked app.now shared.now all.items) }
{
    let results = work_each(rt, app, shared, gate, starts)?;
    all_given(alloc, results)
}

/// Plays an application by its workers, each on a thread of its own where one can be made, and gives the world after all that they did. It
/// may wait: a worker waits for its turn at an object, and all are awaited.
pub fn run_workers<R: Threads + Wait + Sync, G: Gate + Sync>(
    rt: &R,
    alloc: Global,
    app: &App,
    gate: &G,
) -> Result<World, NoMemory>
    requires { IsTrue (is_sound app.now) }
    ensures { IfOk result (λ w. (t : Entries) × WorldStands app.now w t × IsWorkersRun app.now t) }
{
    let (shared, mut firsts) = share(alloc, app)?;
    let starts = starts(alloc, app, shared.as_slice(), &mut firsts)?;
    let all = work_all(rt, alloc, app, shared.as_slice(), gate, starts)?;
    let kepts = close_all(alloc, shared, firsts, all)?;
    World::of(alloc, app, kepts)
}
