ghost use Rattle.std.specs.Prelude.{◌≡◌, None, Some, IfOk, IsTrue};
ghost use Rattle.anti_app.specs.Sound.{is_sound};
ghost use Rattle.anti_proc.specs.Births.{birth_at};
ghost use Rattle.anti_proc.specs.Known.{IsReplyAt};
ghost use Rattle.anti_proc.specs.Meaning.{tree_of};
ghost use Rattle.anti_proc.specs.Tasks.{role_of, task_of};
ghost use Rattle.anti_proc.specs.Trees.{branch};
ghost use Rattle.anti_proc.specs.inner.Running.{IsAdvanceOf, IsRunOf};
ghost use Rattle.anti_proc.specs.inner.Standing.{advanced, birth_of, clock_of, full_by, full_of, its_role, process_of};

use anti_app::App;
use anti_ids::NoMemory;
use anti_kind::Entry;
use anti_proc::{Advance, ProcFault, Process};
use std::alloc::Global;

/// The process that an entry starts, which starts one.
pub fn born(alloc: Global, app: &App, entry: &Entry) -> Result<Process, NoMemory>
    requires sound { IsTrue (is_sound app.now) }
    requires starts { task_of app.now entry.now ≡ None → ⊥ }
    ensures run { IfOk result (λ p. IsRunOf app.now p) }
    ensures stands { IfOk result (λ p. process_of app.now p ≡ tree_of app.now entry.now) }
    ensures clock { IfOk result (λ p. clock_of p ≡ entry.now.stamp) }
    ensures birth { IfOk result (λ p. birth_of p ≡ birth_at entry.now) }
    ensures role { IfOk result (λ p. role_of app.now entry.now ≡ Some (its_role p)) }
    ensures full { IfOk result (λ p. full_of p ≡ None) }
{
    match Process::born(alloc, app, entry) {
        Ok(process) => Ok(process),
        Err(ProcFault::NoMemory) => Err(NoMemory),
        // by `starts`
        Err(ProcFault::Foreign) => unreachable!(),
    }
}

/// What the reply of an entry makes of a process, where it is one of the application. The process stays as it is.
pub fn advance(app: &App, process: &Process, entry: &Entry) -> Result<Advance, NoMemory>
    requires sound { IsTrue (is_sound app.now) }
    requires known { IsReplyAt app.now entry.now.object entry.now.reply }
    requires run { IsRunOf app.now process.now }
    ensures goes { full_of process.now ≡ None → IfOk result (λ a.
        advanced app.now process.now a ≡ branch (process_of app.now process.now) entry.now.reply) }
    ensures run { IfOk result (λ a. IsAdvanceOf app.now process.now a) }
    ensures full { IfOk result (λ a. full_by a ≡ full_of process.now) }
{
    match process.advance(app, &entry.reply) {
        Ok(advance) => Ok(advance),
        Err(ProcFault::NoMemory) => Err(NoMemory),
        // by `known`
        Err(ProcFault::Foreign) => unreachable!(),
    }
}
