ghost use Rattle.std.specs.Prelude.{◌≡◌, ◌++◌, OnOk, IfOk, IsTrue, codes, decimal};
ghost use Rattle.std.specs.List.{flat_map};
ghost use Rattle.anti_ids.specs.List.{plain};
ghost use Rattle.anti_app.specs.Sound.{is_sound};
ghost use Rattle.anti_trace.specs.Legal.{IsLegalTrace};
ghost use Rattle.anti_text.specs.Entries.{entry_line, wait_line};
ghost use Rattle.anti_text.specs.Processes.{process_line};
ghost use Rattle.anti_text.specs.Record.{text_of};
ghost use Rattle.anti_report.specs.Report.{IsPrinted};
ghost use Rattle.anti_text.specs.Spans.{span_line};

use crate::entry_lines::entry_line;
use crate::output::Output;
use crate::printer::Printer;
use crate::process_lines::process_line;
use crate::wait_lines::wait_line;
use anti_app::{App, Waits};
use anti_ids::{Bytes, NoMemory};
use anti_kind::Entry;
use anti_order::SpanAnswer;
use anti_report::{Form, Report};
use anti_trace::{Aftermath, ProcessEnd, Trace};
use std::alloc::Global;

// Few lines of entries are shorter.
const ENTRY_BYTES: usize = 64;

/// For how many bytes there is room from the start in the text of a record.
pub fn first_room(report: &Report) -> usize {
    report.trace.as_slice().len().saturating_mul(ENTRY_BYTES)
}

// Writes the lines of the entries.
fn entry_lines(out: &mut Output, printer: &Printer, trace: &[Entry]) -> Result<(), NoMemory>
    ensures { OnOk result
        (out.new ≡ out.old ++ flat_map (entry_line printer.now.app.now) trace.now) }
{
    for entry in trace {
        entry_line(out, printer, entry)?;
    }
    Ok(())
}

// Writes the lines of the choices that made no entry.
fn wait_lines(out: &mut Output, printer: &Printer, waits: &[u32]) -> Result<(), NoMemory>
    ensures { OnOk result
        (out.new ≡ out.old ++ flat_map (wait_line printer.now.app.now) waits.now) }
{
    for number in waits {
        wait_line(out, printer.app, *number)?;
    }
    Ok(())
}

// Writes the lines of the processes.
fn process_lines(out: &mut Output, printer: &Printer, ends: &[ProcessEnd]) -> Result<(), NoMemory>
    ensures { OnOk result
        (out.new ≡ out.old ++ flat_map (process_line printer.now.app.now) ends.now) }
{
    for process in ends {
        process_line(out, printer.app, process)?;
    }
    Ok(())
}

// Writes the lines of the spans.
fn span_lines(out: &mut Output, printer: &Printer, spans: &[SpanAnswer]) -> Result<(), NoMemory>
    ensures { OnOk result
        (out.new ≡ out.old ++ flat_map (span_line printer.now.app.now) spans.now) }
{
    for answered in spans {
        printer.answered(out, b"span ", answered)?;
    }
    Ok(())
}

// Writes the lines of all that a report tells.
fn all_lines(out: &mut Output, printer: &Printer, report: &Report) -> Result<(), NoMemory>
    ensures { OnOk result (out.new ≡ out.old
        ++ flat_map (entry_line printer.now.app.now) report.now.entries
        ++ flat_map (wait_line printer.now.app.now) report.now.waits
        ++ flat_map (process_line printer.now.app.now) report.now.ends
        ++ flat_map (span_line printer.now.app.now) report.now.spans) }
{
    entry_lines(out, printer, report.trace.as_slice())?;
    wait_lines(out, printer, report.waits.as_slice())?;
    process_lines(out, printer, report.ends.as_slice())?;
    span_lines(out, printer, report.spans.as_slice())
}

/// Writes the line that ends a text of a run, with the number of its entries.
pub fn end_line(out: &mut Output, entries: u32) -> Result<(), NoMemory>
    ensures { OnOk result (out.new ≡ out.old ++ codes "end " ++ decimal entries ++ codes "\n") }
{
    out.numbered(b"end ", u64::from(entries))?;
    out.put(b"\n")
}

// Writes the record of what a report tells, as text.
fn add_text(out: &mut Output, printer: &Printer, report: &Report) -> Result<(), NoMemory>
    ensures { OnOk result (out.new ≡ out.old ++ text_of printer.now.app.now report.now) }
{
    out.put(b"record 1\n")?;
    all_lines(out, printer, report)?;
    end_line(out, report.trace.len())
}

// The record of what a report tells, as text, by what its lines are printed of.
fn printed(printer: &Printer, report: &Report) -> Result<Bytes, NoMemory>
    ensures { IfOk result (λ t. t ≡ plain (text_of printer.now.app.now report.now)) }
{
    let mut out = Output::with_room(printer.alloc, first_room(report))?;
    add_text(&mut out, printer, report)?;
    Ok(out.into_bytes())
}

/// The record of what a report tells, as text: a line for each entry in the order of the trace, for each choice that made no entry, for each
/// process, and for each span with a read. The only error is want of memory.
pub fn print(alloc: Global, app: &App, report: &Report) -> Result<Bytes, NoMemory>
    ensures { IfOk result (λ t. t ≡ plain (text_of app.now report.now)) }
{
    let printer = Printer::new(alloc, app, report)?;
    printed(&printer, report)
}

/// The record, as text.
pub struct RecordText;

impl Form for RecordText {
    ghost use Rattle.anti_report.specs.Report.{IsPrinted};
    ghost use Rattle.anti_text.specs.Record as record_text;

    ghost prints = { λ app. IsPrinted (record_text.text_of app) app };

    fn print(
        alloc: Global,
        app: &App,
        trace: &Trace,
        waits: &Waits,
        after: Aftermath,
    ) -> Result<Bytes, NoMemory> {
        let report = Report::along(alloc, app, trace, waits, after)?;
        print(alloc, app, &report)
    }
}

/// The record of a run of an application, as text, by its trace and its waits. The only error is want of memory.
pub fn text(alloc: Global, app: &App, trace: &Trace, waits: &Waits) -> Result<Bytes, NoMemory>
    requires sound { IsTrue (is_sound app.now) }
    requires legal { IsLegalTrace app.now trace.now }
    ensures { IfOk result (λ t. IsPrinted (text_of app.now)
        app.now trace.now waits.now.items t.items) }
{
    let report = Report::of(alloc, app, trace, waits)?;
    print(alloc, app, &report)
}
