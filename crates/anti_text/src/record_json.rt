ghost use Rattle.std.specs.Prelude.{◌≡◌, ◌∷◌, [], ◌++◌, false, true, codes, map, OnOk, IfOk, IsTrue};
ghost use Rattle.std.specs.List.{flat_map};
ghost use Rattle.serde_json.specs.View.{items_of};
ghost use Rattle.serde_json.specs.Written.{compact_text, items_text};
ghost use Rattle.anti_ids.specs.List.{plain};
ghost use Rattle.anti_app.specs.Sound.{is_sound};
ghost use Rattle.anti_trace.specs.Legal.{IsLegalTrace};
ghost use Rattle.anti_text.specs.Json.{json_of};
ghost use Rattle.anti_report.specs.Report.{IsPrinted};

use crate::json_items::Item;
use crate::json_texts::add_number;
use crate::output::Output;
use crate::printer::Printer;
use crate::record_text::first_room;
use anti_app::{App, Waits};
use anti_ids::{Bytes, NoMemory};
use anti_report::{Form, Report};
use anti_trace::{Aftermath, Trace};
use std::alloc::Global;

// Adds the items behind the first of a list.
fn add_later<T: Item>(out: &mut Output, printer: &Printer, items: &[T]) -> Result<(), NoMemory>
    ensures { OnOk result (out.new ≡ out.old
        ++ flat_map (λ item. codes "," ++ compact_text (T.says printer.now.app.now item)) items.now) }
{
    for item in items {
        out.put(b",")?;
        item.print(out, printer)?;
    }
    Ok(())
}

// Adds some text and the items of a list behind its opening bracket, with the closing one.
fn add_list<T: Item>(
    out: &mut Output,
    printer: &Printer,
    before: &[u8],
    items: &[T],
) -> Result<(), NoMemory>
    ensures { OnOk result (out.new ≡ out.old ++ before.now
        ++ items_text false (items_of (map (T.says printer.now.app.now) items.now))) }
{
    out.put(before)?;
    let Some((first, rest)) = items.split_first() else {
        return out.put(b"]");
    };
    first.print(out, printer)?;
    add_later(out, printer, rest)?;
    out.put(b"]")
}

// Adds the record of what a report tells, as one JSON object and a newline.
fn add_record(out: &mut Output, printer: &Printer, report: &Report) -> Result<(), NoMemory>
    ensures { OnOk result (out.new ≡ out.old ++ json_of printer.now.app.now report.now) }
{
    let entries = report.trace.as_slice();
    add_number(out, b"{\"end\":", entries.len() as u64)?;
    add_list(out, printer, b",\"entries\":[", entries)?;
    add_list(out, printer, b",\"processes\":[", report.ends.as_slice())?;
    add_list(
        out,
        printer,
        b",\"record\":1,\"spans\":[",
        report.spans.as_slice(),
    )?;
    add_list(out, printer, b",\"waits\":[", report.waits.as_slice())?;
    out.put(b"}\n")
}

// The record of what a report tells, as one JSON object and a newline, by what its entries are printed of.
fn printed(printer: &Printer, report: &Report) -> Result<Bytes, NoMemory>
    ensures { IfOk result (λ t. t ≡ plain (json_of printer.now.app.now report.now)) }
{
    let mut out = Output::with_room(printer.alloc, first_room(report))?;
    add_record(&mut out, printer, report)?;
    Ok(out.into_bytes())
}

/// The record of what a report tells, as one JSON object and a newline. The only error is want of memory.
pub fn print_json(alloc: Global, app: &App, report: &Report) -> Result<Bytes, NoMemory>
    ensures { IfOk result (λ t. t ≡ plain (json_of app.now report.now)) }
{
    let printer = Printer::new(alloc, app, report)?;
    printed(&printer, report)
}

/// The record, as JSON.
pub struct RecordJson;

impl Form for RecordJson {
    ghost use Rattle.anti_report.specs.Report.{IsPrinted};
    ghost use Rattle.anti_text.specs.Json.{json_of};

    ghost prints = { λ app. IsPrinted (json_of app) app };

    fn print(
        alloc: Global,
        app: &App,
        trace: &Trace,
        waits: &Waits,
        after: Aftermath,
    ) -> Result<Bytes, NoMemory> {
        let report = Report::along(alloc, app, trace, waits, after)?;
        print_json(alloc, app, &report)
    }
}

/// The record of a run of an application, as JSON, by its trace and its waits. The only error is want of memory.
pub fn json(alloc: Global, app: &App, trace: &Trace, waits: &Waits) -> Result<Bytes, NoMemory>
    requires sound { IsTrue (is_sound app.now) }
    requires legal { IsLegalTrace app.now trace.now }
    ensures { IfOk result (λ t. IsPrinted (json_of app.now)
        app.now trace.now waits.now.items t.items) }
{
    let report = Report::of(alloc, app, trace, waits)?;
    print_json(alloc, app, &report)
}
