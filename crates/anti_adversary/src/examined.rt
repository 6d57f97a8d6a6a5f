ghost use Rattle.std.specs.Prelude.{◌≡◌, IsTrue, IfNone, IfOk, IfSome};
ghost use Rattle.anti_app.specs.Sound.{is_sound};
ghost use Rattle.anti_trace.specs.Legal.{IsLegalTrace};
ghost use Rattle.anti_adversary.specs.Runs.{MissesNothing};
ghost use Rattle.anti_adversary.specs.Verdicts.{IsHint, IsMiss};
ghost use Rattle.anti_adversary.specs.inner.Examining.{is_barred, is_miss};

use anti_app::App;
use anti_doctor::{Diagnosis, SpanDiagnosis, diagnoses, diagnoses_decide};
use anti_ids::NoMemory;
use anti_order::{OrderAnswer, SpanAnswer, answers};
use anti_trace::Trace;
use std::alloc::Global;

// Whether the reads of a span missed something.
fn is_miss(found: &SpanDiagnosis) -> bool
    ensures { result ≡ is_miss found.now.diagnosis }
{
    match &found.diagnosis {
        Diagnosis::Misses(_) => true,
        Diagnosis::Sound(_) => false,
    }
}

/// What the first span of a run missed that missed something.
pub(crate) fn first_miss(
    alloc: Global,
    app: &App,
    trace: &Trace,
) -> Result<Option<SpanDiagnosis>, NoMemory>
    requires sound { IsTrue (is_sound app.now) }
    requires legal { IsLegalTrace app.now trace.now }
    ensures missed { IfOk result (λ miss. IfSome miss (IsMiss trace.now)) }
    ensures nothing { IfOk result (λ miss. IfNone miss (MissesNothing trace.now)) }
{
    diagnoses_decide();
    let mut diagnoses = diagnoses(alloc, app, trace)?;
    let mut first = None;
    while let Some(found) = diagnoses.pop() {
        if !is_miss(&found) {
            continue;
        }
        first = Some(found);
    }
    Ok(first)
}

// Whether no order is answered.
fn is_barred(answer: &SpanAnswer) -> bool
    ensures { result ≡ is_barred answer.now.answer }
{
    match &answer.answer {
        OrderAnswer::Lossy(_) | OrderAnswer::Unguarded(_) => true,
        OrderAnswer::Order(_) => false,
    }
}

/// What is answered of the first span of a run for whose reads no order is answered.
pub(crate) fn first_barred(
    alloc: Global,
    app: &App,
    trace: &Trace,
) -> Result<Option<SpanAnswer>, NoMemory>
    requires sound { IsTrue (is_sound app.now) }
    requires legal { IsLegalTrace app.now trace.now }
    ensures { IfOk result (λ answer. IfSome answer (IsHint app.now trace.now)) }
{
    let mut answers = answers(alloc, app, trace)?;
    let mut first = None;
    while let Some(answer) = answers.pop() {
        if !is_barred(&answer) {
            continue;
        }
        first = Some(answer);
    }
    Ok(first)
}
