ghost use Rattle.std.specs.Prelude.{◌≡◌, ◌≤◌, Some, false, true, IfOk, IfErr, Option};
ghost use Rattle.anti_ids.specs.Counts.{Rose};
ghost use Rattle.anti_command.specs.Faults.{writes};
ghost use Rattle.anti_command.specs.Commands.{reads_source, IsFrom, IsMade};
ghost use Rattle.anti_command.specs.Rows.{Choices, Document, Run, Told, Workers};
ghost use Rattle.anti_command.specs.Causes.{HasCause};
ghost use Rattle.anti_command.specs.inner.Stated.{IsPlayable};
ghost use Rattle.anti_command.specs.Runs.{IsLegalRun, IsPrintOf, IsStated};
ghost use Rattle.anti_trace.specs.inner.Trails.{IsAftermathOf};
ghost use Rattle.anti_load.specs.Load.{load_application};

use crate::app_source::app_of;
use crate::command::Command;
use crate::fault::TopFault;
use crate::outcome::RunKept;
use crate::prepared::Prepared;
use crate::run::{run_of_choices, run_of_workers};
use crate::telling::Telling;
use anti_app::App;
use anti_edge::Source;
use anti_ids::{Bytes, MOST_REQUESTS, NoMemory};
use anti_load::load_app;
use anti_report::Form;
use anti_trace::Aftermath;
use anti_work::Gate;
use std::alloc::Global;
use std::sync::Wait;
use std::thread::Threads;

// Prints a legal run in this form.
#[tactic(auto, unfolding(crate::specs::inner::Stated::IsPlayable, crate::specs::Runs::IsLegalRun, crate::specs::Runs::IsPrintOf))]
fn printed<F: Form>(alloc: Global, kept: &RunKept, after: Aftermath) -> Result<Bytes, NoMemory>
    requires playable { IsPlayable kept.now.app }
    requires legal { IsLegalRun kept.now }
    requires after { IsAftermathOf kept.now.app kept.now.trace after }
    ensures { IfOk result (λ text. IsPrintOf F.prints kept.now text.items) }
{
    F::print(alloc, &kept.app, &kept.trace, &kept.waits, after)
}

// Plays the choices of the application, and prints the run in this form.
fn play_app<F: Form>(alloc: Global, app: App) -> Result<Prepared, NoMemory>
    requires { IsPlayable app }
    ensures { IfOk result (λ p.
        IsMade (Run Choices F.prints) (λ played. played ≡ app) p.0 p.1.items) }
{
    let (kept, after) = run_of_choices(alloc, app)?;
    let text = printed::<F>(alloc, &kept, after)?;
    Ok((Some(kept), text))
}

// Lets workers play the application, and prints the run in this form.
fn work_app<F: Form, R: Threads + Wait + Sync, G: Gate + Sync>(
    rt: &R,
    alloc: Global,
    app: App,
    gate: &G,
) -> Result<Prepared, NoMemory>
    requires { IsPlayable app }
    ensures { IfOk result (λ p.
        IsMade (Run Workers F.prints) (λ played. played ≡ app) p.0 p.1.items) }
{
    let (kept, after) = run_of_workers(rt, alloc, app, gate)?;
    let text = printed::<F>(alloc, &kept, after)?;
    Ok((Some(kept), text))
}

/// Plays the choices of the document that the source has, and prints the run in this form. Each error has its cause, and none is of writing.
pub fn play_document<F: Form, S: Source>(alloc: Global, src: &mut S) -> Result<Prepared, TopFault>
    ensures done { IfOk result (λ p.
        IsMade (Run Choices F.prints) (IsFrom Document (S.left src.old)) p.0 p.1.items) }
    ensures cause { (asked : Option Command) → reads_source asked ≡ true →
        IfErr result (HasCause asked (S.left src.old) (S.left src.new)
        (Rose (S.faults src.old) (S.faults src.new)) ⊥) }
    ensures unwritten { IfErr result (λ fault. writes (Some fault) ≡ false) }
{
    let app = app_of(alloc, src)?;
    let prepared = play_app::<F>(alloc, app)?;
    Ok(prepared)
}

/// Lets workers play the document that the source has, and prints the run in this form. Each error has its cause, and none is of writing.
pub fn work_document<F: Form, R: Threads + Wait + Sync, S: Source, G: Gate + Sync>(
    rt: &R,
    alloc: Global,
    src: &mut S,
    gate: &G,
) -> Result<Prepared, TopFault>
    ensures done { IfOk result (λ p.
        IsMade (Run Workers F.prints) (IsFrom Document (S.left src.old)) p.0 p.1.items) }
    ensures cause { (asked : Option Command) → reads_source asked ≡ true →
        IfErr result (HasCause asked (S.left src.old) (S.left src.new)
        (Rose (S.faults src.old) (S.faults src.new)) ⊥) }
    ensures unwritten { IfErr result (λ fault. writes (Some fault) ≡ false) }
{
    let app = app_of(alloc, src)?;
    let prepared = work_app::<F, R, G>(rt, alloc, app, gate)?;
    Ok(prepared)
}

/// Tells something of the document that the source has, without playing it. Each error has its cause, and none is of writing.
pub fn tell_document<T: Telling, S: Source>(
    alloc: Global,
    src: &mut S,
) -> Result<Prepared, TopFault>
    ensures done { IfOk result (λ p.
        IsMade (Told T.tells) (IsFrom Document (S.left src.old)) p.0 p.1.items) }
    ensures cause { (asked : Option Command) → reads_source asked ≡ true →
        IfErr result (HasCause asked (S.left src.old) (S.left src.new)
        (Rose (S.faults src.old) (S.faults src.new)) ⊥) }
    ensures unwritten { IfErr result (λ fault. writes (Some fault) ≡ false) }
{
    let app = app_of(alloc, src)?;
    let text = T::tell(alloc, app)?;
    Ok((None, text))
}

/// Plays the load of so many requests, and prints the run in this form. Nothing is read. The only error is want of memory.
#[tactic(auto, unfolding(crate::specs::inner::Stated::IsPlayable))]
pub fn play_load<F: Form>(alloc: Global, requests: u32) -> Result<Prepared, NoMemory>
    requires { requests ≤ MOST_REQUESTS }
    ensures { IfOk result (λ p.
        IsMade (Run Choices F.prints) (λ app. app ≡ load_application requests) p.0 p.1.items) }
{
    let app = load_app(alloc, requests)?;
    play_app::<F>(alloc, app)
}
