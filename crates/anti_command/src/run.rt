ghost use Rattle.std.specs.Prelude.{◌≡◌, IfOk};
ghost use Rattle.anti_command.specs.inner.Stated.{IsPlayable};
ghost use Rattle.anti_command.specs.Runs.{DecidesSpans, ExplainsSessions, ExplainsSpans, FindsAll, IsByWorkers, IsLegalRun, IsPlayed};
ghost use Rattle.anti_trace.specs.Legal.{IsLegalTrace};
ghost use Rattle.anti_trace.specs.inner.Trails.{IsAftermathOf};

use crate::outcome::RunKept;
use anti_app::{App, Waits};
use anti_doctor::diagnoses_decide;
use anti_ids::{List, NoMemory};
use anti_order::answered_orders_explain;
use anti_play::{Played, finish_completes, play};
use anti_session::{members_are_a_chain, sessions_are_explained};
use anti_trace::{Aftermath, Trace};
use anti_work::{Gate, run_workers};
use law_causal::barriers_find_all;
use std::alloc::Global;
use std::sync::Wait;
use std::thread::Threads;

// A legal run of the application, with what each legal run is worth.
#[tactic(auto, unfolding(crate::specs::inner::Stated::IsPlayable, crate::specs::Runs::IsLegalRun, crate::specs::Runs::FindsAll, crate::specs::Runs::ExplainsSpans, crate::specs::Runs::ExplainsSessions, crate::specs::Runs::DecidesSpans))]
fn legal_run(app: App, trace: Trace, waits: Waits) -> RunKept
    requires playable { IsPlayable app }
    requires legal { IsLegalTrace app trace }
    ensures app { result.app ≡ app }
    ensures trace { result.trace ≡ trace }
    ensures waits { result.waits ≡ waits }
    ensures legal { IsLegalRun result }
    ensures barriers { FindsAll result }
    ensures orders { ExplainsSpans result }
    ensures sessions { ExplainsSessions result }
    ensures diagnoses { DecidesSpans result }
{
    barriers_find_all();
    answered_orders_explain();
    members_are_a_chain();
    sessions_are_explained();
    diagnoses_decide();
    RunKept { app, trace, waits }
}

/// The run of the choices of the application, and what is left of its processes: its record is made of this too, and it is not kept. The
/// only error is want of memory.
#[tactic(auto, unfolding(crate::specs::inner::Stated::IsPlayable, crate::specs::Runs::IsPlayed))]
pub fn run_of_choices(alloc: Global, app: App) -> Result<(RunKept, Aftermath), NoMemory>
    requires { IsPlayable app }
    ensures app { IfOk result (λ run. run.0.app ≡ app) }
    ensures played { IfOk result (λ run. IsPlayed run.0) }
    ensures legal { IfOk result (λ run. IsLegalRun run.0) }
    ensures barriers { IfOk result (λ run. FindsAll run.0) }
    ensures orders { IfOk result (λ run. ExplainsSpans run.0) }
    ensures sessions { IfOk result (λ run. ExplainsSessions run.0) }
    ensures diagnoses { IfOk result (λ run. DecidesSpans run.0) }
    ensures after { IfOk result (λ run.
        IsAftermathOf run.0.app run.0.trace run.1) }
{
    let Played {
        trace,
        waits,
        after,
    } = play(alloc, &app)?;
    Ok((legal_run(app, trace, waits), after))
}

/// The run of the workers of the application, behind which all that they left was made, and what is left of its processes. The only error is
/// want of memory.
pub fn run_of_workers<R: Threads + Wait + Sync, G: Gate + Sync>(
    rt: &R,
    alloc: Global,
    app: App,
    gate: &G,
) -> Result<(RunKept, Aftermath), NoMemory>
    requires { IsPlayable app }
    ensures app { IfOk result (λ run. run.0.app ≡ app) }
    ensures workers { IfOk result (λ run. IsByWorkers run.0) }
    ensures legal { IfOk result (λ run. IsLegalRun run.0) }
    ensures barriers { IfOk result (λ run. FindsAll run.0) }
    ensures orders { IfOk result (λ run. ExplainsSpans run.0) }
    ensures sessions { IfOk result (λ run. ExplainsSessions run.0) }
    ensures diagnoses { IfOk result (λ run. DecidesSpans run.0) }
    ensures after { IfOk result (λ run.
        IsAftermathOf run.0.app run.0.trace run.1) }
{
    let mut world = run_workers(rt, alloc, &app, gate)?;
    world.finish(&app)?;
    let (trace, after) = world.over(alloc)?;
    finish_completes();
    Ok((legal_run(app, trace, List::new(alloc)), after))
}
