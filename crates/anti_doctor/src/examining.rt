ghost use Rattle.std.specs.Prelude.{◌≡◌, All, IfOk, IsTrue, OnOk};
ghost use Rattle.anti_ids.specs.ListCalls.{pushed};
ghost use Rattle.anti_app.specs.declared.app.App.{App};
ghost use Rattle.anti_app.specs.Sound.{is_sound};
ghost use Rattle.anti_trace.specs.Legal.{IsLegalTrace};
ghost use Rattle.law_causal.specs.Reads.{reads_of};
ghost use Rattle.anti_doctor.specs.Diagnoses.{AreDiagnosesOf, IsDiagnosis};
ghost use Rattle.anti_doctor.specs.inner.Diagnosed.{AreDiagnosesFor};
ghost use Rattle.anti_doctor.specs.inner.Findings.{AreGrounds};

use crate::diagnosis::{Diagnosis, SpanDiagnoses, SpanDiagnosis};
use crate::grounds::Grounds;
use anti_app::App;
use anti_ids::NoMemory;
use anti_kind::Birth;
use anti_order::reads_of;
use anti_past::{ReadsOfSpan, reads_by_span};
use anti_trace::Trace;
use std::alloc::Global;

/// What is found of the reads of a span of a process, which is named by its birth. The only error is want of memory.
pub fn examine(
    alloc: Global,
    app: &App,
    trace: &Trace,
    birth: Birth,
    span: u32,
) -> Result<Diagnosis, NoMemory>
    requires sound { IsTrue (is_sound app.now) }
    requires legal { IsLegalTrace app.now trace.now }
    ensures { IfOk result (IsDiagnosis trace.now (reads_of trace.now birth span)) }
{
    let reads = reads_of(alloc, trace, birth, span)?;
    let grounds = Grounds::of(alloc, app, trace)?;
    grounds.diagnosis(alloc, trace, reads.as_slice())
}

// Adds a diagnosis at the end.
fn add(diagnoses: &mut SpanDiagnoses, diagnosis: SpanDiagnosis) -> Result<(), NoMemory>
    ensures { OnOk result (diagnoses.new ≡ pushed diagnoses.old diagnosis) }
{
    match diagnoses.push(diagnosis) {
        Ok(()) => Ok(()),
        Err(_) => Err(NoMemory),
    }
}

// What is found of the reads of some spans.
fn diagnosed(
    alloc: Global,
    trace: &Trace,
    grounds: &Grounds,
    spans: &[ReadsOfSpan],
) -> Result<SpanDiagnoses, NoMemory>
    requires legal { (app : App) × IsLegalTrace app trace.now }
    requires grounds { AreGrounds trace.now grounds.now }
    requires reads { All (λ s. s.reads.items ≡ reads_of trace.now s.span.birth s.span.span) spans.now }
    ensures { IfOk result (λ diagnoses. AreDiagnosesFor trace.now spans.now diagnoses.items) }
{
    let mut diagnoses = SpanDiagnoses::new(alloc);
    for reads in spans {
        let diagnosis = SpanDiagnosis {
            span: reads.span,
            diagnosis: grounds.diagnosis(alloc, trace, reads.reads.as_slice())?,
        };
        add(&mut diagnoses, diagnosis)?;
    }
    Ok(diagnoses)
}

// The same. Where there are no spans, the trace is not gone along.
fn diagnosed_of(
    alloc: Global,
    app: &App,
    trace: &Trace,
    spans: &[ReadsOfSpan],
) -> Result<SpanDiagnoses, NoMemory>
    requires sound { IsTrue (is_sound app.now) }
    requires legal { IsLegalTrace app.now trace.now }
    requires reads { All (λ s. s.reads.items ≡ reads_of trace.now s.span.birth s.span.span) spans.now }
    ensures { IfOk result (λ diagnoses. AreDiagnosesFor trace.now spans.now diagnoses.items) }
{
    if spans.is_empty() {
        return Ok(SpanDiagnoses::new(alloc));
    }
    let grounds = Grounds::of(alloc, app, trace)?;
    diagnosed(alloc, trace, &grounds, spans)
}

/// What is found of the reads of each span in which something was read, by the objects and places of the births of their processes, and by
/// their numbers. The only error is want of memory.
pub fn diagnoses(alloc: Global, app: &App, trace: &Trace) -> Result<SpanDiagnoses, NoMemory>
    requires sound { IsTrue (is_sound app.now) }
    requires legal { IsLegalTrace app.now trace.now }
    ensures { IfOk result (λ diagnoses. AreDiagnosesOf trace.now diagnoses.items) }
{
    let spans = reads_by_span(alloc, trace)?;
    diagnosed_of(alloc, app, trace, spans.as_slice())
}
