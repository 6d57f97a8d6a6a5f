ghost use Rattle.std.specs.Prelude.{◌≡◌, ◌++◌, IfOk, OnOk};
ghost use Rattle.std.specs.List.{flat_map};
ghost use Rattle.anti_ids.specs.List.{plain};
ghost use Rattle.anti_text.specs.Diagnoses.{diagnoses_text, diagnosis_line, diagnosis_text, spaced_pair};

use crate::mark_texts::MarkTexts;
use crate::output::Output;
use crate::record_text::end_line;
use crate::span_lines::span_name;
use crate::words::{mark_text, spaced_mark};
use anti_app::{App, Waits};
use anti_doctor::{Diagnosis, Finding, SpanDiagnosis, diagnoses};
use anti_ids::{Bytes, NoMemory};
use anti_report::Form;
use anti_trace::{Aftermath, Mark, Trace};
use std::alloc::Global;

// The marks of all writes, which the orders among diagnoses share; none where there is no order.
fn marked(diagnoses: &[SpanDiagnosis]) -> &[Mark] {
    for found in diagnoses {
        if let Diagnosis::Sound(marks) = &found.diagnosis {
            return marks.pieces().writes;
        }
    }
    &[]
}

// Writes a read and a write that it missed, behind a space.
fn spaced_pair(out: &mut Output, app: &App, finding: &Finding) -> Result<(), NoMemory>
    ensures { OnOk result (out.new ≡ out.old ++ spaced_pair app.now finding.now) }
{
    spaced_mark(out, app, finding.read)?;
    out.put(b":")?;
    mark_text(out, app, finding.write.object, finding.write.place)
}

// Writes reads and writes that they missed.
fn pairs(out: &mut Output, app: &App, findings: &[Finding]) -> Result<(), NoMemory>
    ensures { OnOk result
        (out.new ≡ out.old ++ flat_map (spaced_pair app.now) findings.now) }
{
    for finding in findings {
        spaced_pair(out, app, finding)?;
    }
    Ok(())
}

// Writes a diagnosis.
fn diagnosis_text(
    out: &mut Output,
    texts: &MarkTexts,
    diagnosis: &Diagnosis,
) -> Result<(), NoMemory>
    ensures { OnOk result (out.new ≡ out.old ++ diagnosis_text texts.now.app.now diagnosis.now) }
{
    match diagnosis {
        Diagnosis::Sound(marks) => {
            out.put(b"sound")?;
            texts.marks(out, marks)
        }
        Diagnosis::Misses(findings) => {
            out.put(b"misses")?;
            pairs(out, texts.app, findings.as_slice())
        }
    }
}

/// Writes the line of a span with its diagnosis.
pub fn diagnosis_line(
    out: &mut Output,
    texts: &MarkTexts,
    found: &SpanDiagnosis,
) -> Result<(), NoMemory>
    ensures { OnOk result (out.new ≡ out.old ++ diagnosis_line texts.now.app.now found.now) }
{
    out.put(b"span ")?;
    span_name(out, texts.app, found.span)?;
    out.put(b" ")?;
    diagnosis_text(out, texts, &found.diagnosis)?;
    out.put(b"\n")
}

// Writes the lines of spans.
fn diagnosis_lines(
    out: &mut Output,
    texts: &MarkTexts,
    diagnoses: &[SpanDiagnosis],
) -> Result<(), NoMemory>
    ensures { OnOk result
        (out.new ≡ out.old ++ flat_map (diagnosis_line texts.now.app.now) diagnoses.now) }
{
    for found in diagnoses {
        diagnosis_line(out, texts, found)?;
    }
    Ok(())
}

// The text of the diagnoses of a run with so many entries.
fn printed(
    alloc: Global,
    app: &App,
    entries: u32,
    diagnoses: &[SpanDiagnosis],
) -> Result<Bytes, NoMemory>
    ensures { IfOk result (λ t. t ≡ plain (diagnoses_text app.now entries diagnoses.now)) }
{
    let texts = MarkTexts::of(alloc, app, marked(diagnoses))?;
    let mut out = Output::new(alloc);
    out.put(b"doctor 1\n")?;
    diagnosis_lines(&mut out, &texts, diagnoses)?;
    end_line(&mut out, entries)?;
    Ok(out.into_bytes())
}

/// What the reads of each span of a run missed, or an order that explains them, as text: a line for each span with a read.
pub struct DoctorText;

impl Form for DoctorText {
    ghost use Rattle.anti_text.specs.Diagnoses.{PrintsDiagnoses};

    ghost prints = { λ app trace waits. PrintsDiagnoses app trace };

    fn print(
        alloc: Global,
        app: &App,
        trace: &Trace,
        _waits: &Waits,
        _after: Aftermath,
    ) -> Result<Bytes, NoMemory> {
        let found = diagnoses(alloc, app, trace)?;
        printed(alloc, app, trace.len(), found.as_slice())
    }
}
