ghost use Rattle.std.specs.Prelude.{ℕ, ◌≡◌, ◌<◌, length, true, false, IfOk, IsTrue, Some, slice_get};
ghost use Rattle.anti_kind.specs.declared.entry.Entry.{Entry};
ghost use Rattle.anti_app.specs.Sound.{is_sound};
ghost use Rattle.anti_proc.specs.Births.{is_birth};
ghost use Rattle.anti_trace.specs.Legal.{IsLegalTrace};
ghost use Rattle.law_causal.specs.Carried.{carried_at};
ghost use Rattle.law_causal.specs.Causal.{is_process};

use crate::processes_before::{carried_by, processes_before};
use anti_app::App;
use anti_ids::{Copies, Lineage, NoMemory};
use anti_trace::Trace;
use std::alloc::Global;

/// The lineage that a process carried into its entry at an index, which is not its birth. The only error is want of memory.
pub fn carried(alloc: Global, app: &App, trace: &Trace, index: u32) -> Result<Lineage, NoMemory>
    requires sound { IsTrue (is_sound app.now) }
    requires legal { IsLegalTrace app.now trace.now }
    requires index { index < length trace.now }
    requires asked { (e : Entry) → slice_get trace.now index ≡ Some e
        → (is_process e.actor ≡ true) × (is_birth e ≡ false) }
    ensures { IfOk result (λ lineage. (e : Entry) → slice_get trace.now index ≡ Some e
        → lineage ≡ carried_at app.now trace.now index e) }
{
    let processes = processes_before(alloc, app, trace, index)?;
    let entry = trace.at(index);
    match carried_by(&processes, entry, processes.place_of(entry)) {
        Some(lineage) => lineage.copy(alloc),
        // the process asks for it, by `asked`
        None => unreachable!(),
    }
}
