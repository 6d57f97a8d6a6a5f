ghost use Rattle.std.specs.Prelude.{◌≡◌, ◌++◌, [], length, find, option_map, IfOk, OnOk};
ghost use Rattle.std.specs.Option.{option_map_or};
ghost use Rattle.anti_ids.specs.List.{plain};
ghost use Rattle.anti_text.specs.Diagnoses.{diagnosis_line};
ghost use Rattle.anti_text.specs.Spans.{span_line};
ghost use Rattle.anti_text.specs.Counterexamples.{deed_text, end_text, found_text, has_mark, made_line, made_lines, numbered_line, shown_text, verdict_text};

use crate::call_words::call_text;
use crate::doctor_text::diagnosis_line;
use crate::mark_texts::MarkTexts;
use crate::output::Output;
use crate::printer::Printer;
use crate::record_text::end_line;
use crate::reply_words::reply_text;
use crate::span_lines::answered_line;
use crate::wait_lines::choice_text;
use crate::words::mark_text;
use anti_adversary::{Hint, Shown, Verdict};
use anti_app::{App, Choice};
use anti_doctor::SpanDiagnosis;
use anti_ids::{Bytes, NoMemory};
use anti_kind::Entry;
use anti_order::SpanAnswer;
use anti_trace::Mark;
use std::alloc::Global;

// Writes what an entry is, without its stamp and who made it.
fn deed_text(out: &mut Output, printer: &Printer, entry: &Entry) -> Result<(), NoMemory>
    ensures { OnOk result (out.new ≡ out.old ++ deed_text printer.now.app.now entry.now) }
{
    mark_text(out, printer.app, entry.object, entry.place)?;
    out.put(b" ")?;
    call_text(out, printer, entry.object, &entry.call)?;
    out.put(b" = ")?;
    reply_text(out, printer, &entry.reply)
}

// The entry with a mark.
fn marked_entry(trace: &[Entry], mark: Mark) -> Option<&Entry>
    ensures { option_map (λ e. e.now) result ≡ find (has_mark mark) trace.now }
{
    trace
        .iter()
        .find(|e| e.object == mark.object && e.place == mark.place)
}

// Writes the entry with a mark, where there is one.
fn deed_at(out: &mut Output, printer: &Printer, trace: &[Entry], mark: Mark) -> Result<(), NoMemory>
    ensures { OnOk result (out.new ≡ out.old
        ++ option_map_or (deed_text printer.now.app.now) (find (has_mark mark) trace.now) []) }
{
    match marked_entry(trace, mark) {
        Some(entry) => deed_text(out, printer, entry),
        None => Ok(()),
    }
}

// Writes the line of a choice.
fn made_line(
    out: &mut Output,
    printer: &Printer,
    trace: &[Entry],
    choice: &Choice,
    mark: Mark,
) -> Result<(), NoMemory>
    ensures { OnOk result (out.new ≡ out.old ++ made_line printer.now.app.now trace.now choice.now mark) }
{
    out.put(b"    \"")?;
    choice_text(out, printer.app, choice)?;
    out.put(b"\", # ")?;
    deed_at(out, printer, trace, mark)?;
    out.put(b"\n")
}

// Writes the lines of choices, each with the mark of its entry.
fn made_lines(
    out: &mut Output,
    printer: &Printer,
    trace: &[Entry],
    choices: &[Choice],
    marks: &[Mark],
) -> Result<(), NoMemory>
    ensures { OnOk result (out.new ≡ out.old ++ made_lines printer.now.app.now trace.now choices.now marks.now) }
{
    let mut left = marks;
    for choice in choices {
        let [mark, behind @ ..] = left else {
            return Ok(());
        };
        made_line(out, printer, trace, choice, *mark)?;
        left = behind;
    }
    Ok(())
}

// Writes the choices of an application, as a document states them, by what prints their entries.
#[tactic(auto, unfolding(crate::specs::Counterexamples::shown_text))]
fn printed(out: &mut Output, printer: &Printer, shown: &Shown) -> Result<(), NoMemory>
    ensures { OnOk result (out.new ≡ out.old ++ shown_text printer.now.app.now shown.now) }
{
    out.put(b"choices = [\n")?;
    made_lines(
        out,
        printer,
        shown.trace.as_slice(),
        printer.app.choices.as_slice(),
        shown.marks.as_slice(),
    )?;
    out.put(b"]\n")
}

// Writes the choices of an application, as a document states them.
fn shown_text(out: &mut Output, alloc: Global, app: &App, shown: &Shown) -> Result<(), NoMemory>
    ensures { OnOk result (out.new ≡ out.old ++ shown_text app.now shown.now) }
{
    let printer = Printer::of(alloc, app, shown.trace.as_slice(), &[])?;
    printed(out, &printer, shown)
}

// Writes the line of a span with what it missed, and how many entries there are.
fn missed_text(
    out: &mut Output,
    alloc: Global,
    app: &App,
    missed: &SpanDiagnosis,
    entries: u32,
) -> Result<(), NoMemory>
    ensures { OnOk result (out.new ≡ out.old ++ diagnosis_line app.now missed.now ++ end_text entries) }
{
    let texts = MarkTexts::of(alloc, app, &[])?;
    diagnosis_line(out, &texts, missed)?;
    end_line(out, entries)
}

// Writes the line of a span with what is answered of it, and how many entries there are.
fn answered_text(
    out: &mut Output,
    alloc: Global,
    app: &App,
    answer: &SpanAnswer,
    entries: u32,
) -> Result<(), NoMemory>
    ensures { OnOk result (out.new ≡ out.old ++ span_line app.now answer.now ++ end_text entries) }
{
    let texts = MarkTexts::of(alloc, app, &[])?;
    answered_line(out, &texts, b"span ", answer)?;
    end_line(out, entries)
}

// Writes a word and a number, as a line.
#[tactic(auto, unfolding(crate::specs::Counterexamples::numbered_line))]
fn numbered_line(out: &mut Output, word: &[u8], number: u32) -> Result<(), NoMemory>
    ensures { OnOk result (out.new ≡ out.old ++ numbered_line word.now number) }
{
    out.numbered(word, u64::from(number))?;
    out.put(b"\n")
}

// Writes the choices of a run, and behind them what a span of it missed.
#[tactic(auto, unfolding(crate::specs::Counterexamples::found_text))]
fn found_text(
    out: &mut Output,
    alloc: Global,
    app: &App,
    shown: &Shown,
    missed: &SpanDiagnosis,
) -> Result<(), NoMemory>
    ensures { OnOk result (out.new ≡ out.old ++ found_text app.now shown.now missed.now) }
{
    shown_text(out, alloc, app, shown)?;
    missed_text(out, alloc, app, missed, shown.trace.len())
}

// Writes the choices of a run in which something is missing, and behind them what is answered of a span of it.
fn hint_text(
    out: &mut Output,
    alloc: Global,
    app: &App,
    shown: &Shown,
    answer: &SpanAnswer,
) -> Result<(), NoMemory>
    ensures { OnOk result (out.new ≡ out.old
        ++ shown_text app.now shown.now ++ span_line app.now answer.now ++ end_text (length shown.now.trace)) }
{
    shown_text(out, alloc, app, shown)?;
    answered_text(out, alloc, app, answer, shown.trace.len())
}

// Writes what is said of an application.
fn add_verdict(
    out: &mut Output,
    alloc: Global,
    app: &App,
    verdict: &Verdict,
) -> Result<(), NoMemory>
    ensures { OnOk result (out.new ≡ out.old ++ verdict_text app.now verdict.now) }
{
    match verdict {
        Verdict::Placed => numbered_line(out, b"none ", 0),
        Verdict::Found {
            number,
            shown,
            missed,
        } => {
            numbered_line(out, b"counterexample ", *number)?;
            found_text(out, alloc, app, shown, missed)
        }
        Verdict::Long {
            number,
            entries,
            missed,
        } => {
            numbered_line(out, b"long ", *number)?;
            missed_text(out, alloc, app, missed, *entries)
        }
        Verdict::Tried { runs, hint } => {
            numbered_line(out, b"none ", *runs)?;
            match hint {
                Some(Hint { shown, answer }) => hint_text(out, alloc, app, shown, answer),
                None => Ok(()),
            }
        }
    }
}

/// What a search for a run in which reads miss writes says of an application, as text. The only error is want of memory.
pub fn verdict_text(alloc: Global, app: &App, verdict: &Verdict) -> Result<Bytes, NoMemory>
    ensures { IfOk result (λ t. t ≡ plain (verdict_text app.now verdict.now)) }
{
    let mut out = Output::new(alloc);
    add_verdict(&mut out, alloc, app, verdict)?;
    Ok(out.into_bytes())
}
