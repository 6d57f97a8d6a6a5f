ghost use Rattle.std.specs.Prelude.{◌≡◌, ◌++◌, ℕ, List, IfOk, IsTrue, OnOk};
ghost use Rattle.anti_app.specs.Sound.{is_sound};
ghost use Rattle.anti_trace.specs.Legal.{IsLegalTrace};
ghost use Rattle.anti_report.specs.Report.{IsPrinted};
ghost use Rattle.anti_text.specs.Summary.{count_line, entry_counts, process_counts, span_counts, summary_of, counts_text};

use crate::output::Output;
use anti_app::{App, Waits};
use anti_ids::{Bytes, NoMemory};
use anti_order::AnswerCounts;
use anti_report::{Form, RunCounts};
use anti_trace::{Aftermath, Trace};
use itoa::Buffer;
use std::alloc::Global;

// Writes the line of what is counted, and how many there are.
fn count_line(out: &mut Output, what: &[u8], count: usize) -> Result<(), NoMemory>
    ensures { OnOk result (out.new ≡ out.old ++ count_line what.now count) }
{
    let mut digits = Buffer::new();
    out.put_all(&[what, b" ", digits.format(count).as_bytes(), b"\n"])
}

// Writes how many entries there are, and how many of them are of each kind.
fn entry_counts(out: &mut Output, counts: &RunCounts) -> Result<(), NoMemory>
    ensures { OnOk result (out.new ≡ out.old ++ entry_counts counts.now) }
{
    count_line(out, b"entries", counts.entries)?;
    count_line(out, b"writes", counts.writes)?;
    count_line(out, b"reads", counts.reads)?;
    count_line(out, b"looks", counts.looks)?;
    count_line(out, b"ships", counts.ships)
}

// Writes how many processes there are, and how many of them came to the end of their bodies.
fn process_counts(out: &mut Output, counts: &RunCounts) -> Result<(), NoMemory>
    ensures { OnOk result (out.new ≡ out.old ++ process_counts counts.now) }
{
    count_line(out, b"processes", counts.processes)?;
    count_line(out, b"fine", counts.fine)
}

// Writes how many spans with a read have which answer.
fn span_counts(out: &mut Output, counts: AnswerCounts) -> Result<(), NoMemory>
    ensures { OnOk result (out.new ≡ out.old ++ span_counts counts) }
{
    count_line(out, b"ordered", counts.ordered)?;
    count_line(out, b"unguarded", counts.unguarded)?;
    count_line(out, b"lossy", counts.lossy)
}

/// The text of the counts of a run. The only error is want of memory.
pub fn print_summary(alloc: Global, counts: &RunCounts) -> Result<Bytes, NoMemory>
    ensures { IfOk result (λ t. t.items ≡ counts_text counts.now) }
{
    let mut out = Output::new(alloc);
    out.put(b"summary 1\n")?;
    entry_counts(&mut out, counts)?;
    process_counts(&mut out, counts)?;
    span_counts(&mut out, counts.spans)?;
    Ok(out.into_bytes())
}

/// The summary: how many entries, processes and spans of each kind there are. The orders of the spans are counted, and not made.
pub struct SummaryText;

impl Form for SummaryText {
    ghost use Rattle.anti_report.specs.Report.{IsPrinted};
    ghost use Rattle.anti_text.specs.Summary.{summary_of};

    ghost prints = { IsPrinted summary_of };

    fn print(
        alloc: Global,
        app: &App,
        trace: &Trace,
        _waits: &Waits,
        after: Aftermath,
    ) -> Result<Bytes, NoMemory> {
        let counts = RunCounts::of(alloc, app, trace, &after)?;
        print_summary(alloc, &counts)
    }
}

/// The summary of a run of an application, by its trace. What is left of its processes is found by one more walk along the trace. The only
/// error is want of memory.
pub fn summary(alloc: Global, app: &App, trace: &Trace) -> Result<Bytes, NoMemory>
    requires sound { IsTrue (is_sound app.now) }
    requires legal { IsLegalTrace app.now trace.now }
    ensures { (waits : List ℕ) → IfOk result (λ t. IsPrinted summary_of app.now trace.now waits t.items) }
{
    let after = Aftermath::of(alloc, app, trace.as_slice())?;
    let counts = RunCounts::of(alloc, app, trace, &after)?;
    print_summary(alloc, &counts)
}
