ghost use Rattle.std.specs.Prelude.{◌≡◌, ◌<◌, ◌≤◌, ◌↔◌, length, true, IfOk, IsTrue, Some, slice_get, take};
ghost use Rattle.anti_kind.specs.declared.entry.Entry.{Entry};
ghost use Rattle.anti_app.specs.Sound.{is_sound};
ghost use Rattle.anti_trace.specs.Legal.{IsLegalTrace};
ghost use Rattle.law_causal.specs.Settled.{IsSettled};
ghost use Rattle.law_causal.specs.Words.{reads};
ghost use Rattle.anti_past.specs.inner.Found.{AreFound};

use crate::finds::Finds;
use crate::processes_before::{handed_at, processes_before};
use anti_app::App;
use anti_ids::NoMemory;
use anti_trace::Trace;
use std::alloc::Global;

// What the looks found that stand before the entry at an index.
fn found_before(alloc: Global, trace: &Trace, index: u32) -> Result<Finds, NoMemory>
    requires { index ≤ length trace.now }
    ensures { IfOk result (AreFound (take index trace.now)) }
{
    let mut found = Finds::new(alloc);
    for at in 0..index {
        found.add(alloc, trace.at(at))?;
    }
    Ok(found)
}

/// Whether the read at an index is settled. The only error is want of memory.
pub fn settled(alloc: Global, app: &App, trace: &Trace, index: u32) -> Result<bool, NoMemory>
    requires sound { IsTrue (is_sound app.now) }
    requires legal { IsLegalTrace app.now trace.now }
    requires index { index < length trace.now }
    requires read { (e : Entry) → slice_get trace.now index ≡ Some e → reads e.call ≡ true }
    ensures { IfOk result (λ answer. (e : Entry) → slice_get trace.now index ≡ Some e
        → (answer ≡ true) ↔ IsSettled app.now trace.now index e) }
{
    let processes = processes_before(alloc, app, trace, index)?;
    let found = found_before(alloc, trace, index)?;
    let entry = trace.at(index);
    let handed = handed_at(&processes, entry, processes.place_of(entry));
    match found.past(alloc, app, entry, handed)? {
        Some(past) => Ok(past.settled),
        // it is a read, by `read`
        None => unreachable!(),
    }
}
