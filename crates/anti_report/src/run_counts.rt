ghost use Rattle.std.specs.Prelude.{◌≡◌, ℕ, List, count_by, IfOk, IsTrue};
ghost use Rattle.anti_app.specs.Sound.{is_sound};
ghost use Rattle.anti_proc.specs.Looks.{is_look};
ghost use Rattle.anti_trace.specs.Legal.{IsLegalTrace};
ghost use Rattle.anti_trace.specs.inner.Trails.{IsAftermathOf};
ghost use Rattle.law_causal.specs.Words.{reads};
ghost use Rattle.anti_report.specs.RunCounts.{calls_counted, is_fine, is_ship, is_write};
ghost use Rattle.anti_report.specs.Tallies.{AreRunCountsOf};

use anti_app::App;
use anti_ids::NoMemory;
use anti_kind::{Call, Entry};
use anti_order::{AnswerCounts, count_answers_along};
use anti_past::reads;
use anti_proc::End;
use anti_trace::{Aftermath, ProcessEnd, Trace};
use std::alloc::Global;

/// How many entries, processes and spans of each kind a run has.
#[derive(Clone, Copy)]
pub struct RunCounts {
    /// All entries.
    pub entries: usize,
    /// Those that write.
    pub writes: usize,
    /// Those that read: a key, a prefix or a cell.
    pub reads: usize,
    /// The looks of barriers and dry runs.
    pub looks: usize,
    /// The shipments.
    pub ships: usize,
    /// All processes.
    pub processes: usize,
    /// Those that came to the end of their bodies.
    pub fine: usize,
    /// The spans with a read, by what is answered of them.
    pub spans: AnswerCounts,
}

// How many writes there are.
fn count_writes(entries: &[Entry]) -> usize
    ensures { result ≡ calls_counted is_write entries.now }
{
    entries
        .iter()
        .filter(|entry| matches!(entry.call, Call::Write { .. }))
        .count()
}

// How many reads there are.
fn count_reads(entries: &[Entry]) -> usize
    ensures { result ≡ calls_counted reads entries.now }
{
    entries.iter().filter(|entry| reads(&entry.call)).count()
}

// How many looks there are.
fn count_looks(entries: &[Entry]) -> usize
    ensures { result ≡ calls_counted is_look entries.now }
{
    entries
        .iter()
        .filter(|entry| matches!(entry.call, Call::Look { .. }))
        .count()
}

// How many ships there are.
fn count_ships(entries: &[Entry]) -> usize
    ensures { result ≡ calls_counted is_ship entries.now }
{
    entries
        .iter()
        .filter(|entry| matches!(entry.call, Call::Ship { .. }))
        .count()
}

// How many processes came to the end of their bodies.
fn count_fine(ends: &[ProcessEnd]) -> usize
    ensures { result ≡ count_by (λ p. is_fine p.end) ends.now }
{
    ends.iter()
        .filter(|process| process.end == Some(End::Fine))
        .count()
}

impl RunCounts {
    /// The counts of a run of an application, of whose processes this is left. The orders of the spans are counted, and not made. The only
    /// error is want of memory.
    pub fn of(
        alloc: Global,
        app: &App,
        trace: &Trace,
        after: &Aftermath,
    ) -> Result<RunCounts, NoMemory>
        requires sound { IsTrue (is_sound app.now) }
        requires legal { IsLegalTrace app.now trace.now }
        requires after { IsAftermathOf app.now trace.now after.now }
        ensures { (waits : List ℕ) → IfOk result (AreRunCountsOf app.now trace.now waits) }
    {
        let spans = count_answers_along(alloc, app, trace, &after.trail)?;
        let entries = trace.as_slice();
        let ends = after.ends.as_slice();
        Ok(RunCounts {
            entries: entries.len(),
            writes: count_writes(entries),
            reads: count_reads(entries),
            looks: count_looks(entries),
            ships: count_ships(entries),
            processes: ends.len(),
            fine: count_fine(ends),
            spans,
        })
    }
}
