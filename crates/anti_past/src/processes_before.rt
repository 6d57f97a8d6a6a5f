ghost use Rattle.std.specs.Prelude.{ℕ, ◌≡◌, ◌≤◌, length, take, IfOk, IsTrue, Some, option_map};
ghost use Rattle.anti_app.specs.declared.app.App.{App};
ghost use Rattle.anti_app.specs.Sound.{is_sound};
ghost use Rattle.anti_trace.specs.Histories.{Entries};
ghost use Rattle.anti_trace.specs.Legal.{IsLegalTrace};
ghost use Rattle.anti_trace.specs.inner.Living.{AreProcessesOf, IsPlaceOf, lists};
ghost use Rattle.law_causal.specs.Carried.{carried_at};
ghost use Rattle.anti_past.specs.inner.Walking.{IsAskedNext, IsHanded, IsNextAt};

use crate::calls::hands_all;
use anti_app::{App, object_count};
use anti_ids::{Lineage, NoMemory};
use anti_kind::{Actor, Entry};
use anti_trace::{Processes, Trace};
use std::alloc::Global;

/// The processes of a legal trace as they are before the entry at an index.
pub fn processes_before(
    alloc: Global,
    app: &App,
    trace: &Trace,
    index: u32,
) -> Result<Processes, NoMemory>
    requires sound { IsTrue (is_sound app.now) }
    requires legal { IsLegalTrace app.now trace.now }
    requires index { index ≤ length trace.now }
    ensures { IfOk result (λ processes. AreProcessesOf app.now (lists processes) (take index trace.now)) }
{
    let mut processes = Processes::new(alloc, object_count(app) as usize)?;
    for at in 0..index {
        processes.follow(alloc, app, trace.at(at))?;
    }
    Ok(processes)
}

/// The lineage that the process of an entry carries into its next call, by the place at which it stands; `None` where there is no process,
/// or no call.
pub fn carried_by<'a>(
    processes: &'a Processes,
    entry: &Entry,
    place: Option<usize>,
) -> Option<&'a Lineage>
    requires { IsPlaceOf (lists processes.now) entry.now place }
    ensures { (app : App) (trace : Entries) (index : ℕ)
        → IsAskedNext app trace index (lists processes.now) entry.now
        → option_map (λ ids. ids.now) result ≡ Some (carried_at app trace index entry.now) }
{
    match entry.actor {
        Actor::Process(birth) => {
            let process = processes.of(birth, place)?;
            let asked = process.next()?;
            Some(asked.carried)
        }
        _ => None,
    }
}

/// What the process of an entry hands at it, by the place at which it stands: the lineage that it carries into an entry at which it is to
/// carry all that came to its span, and nothing at another.
pub fn handed_at<'a>(
    processes: &'a Processes,
    entry: &Entry,
    place: Option<usize>,
) -> Option<&'a Lineage>
    requires { IsPlaceOf (lists processes.now) entry.now place }
    ensures { (app : App) (trace : Entries) (index : ℕ)
        → IsNextAt app trace index (lists processes.now) entry.now
        → IsHanded app trace index entry.now (option_map (λ ids. ids.now) result) }
{
    if hands_all(&entry.call) {
        return carried_by(processes, entry, place);
    }
    None
}
