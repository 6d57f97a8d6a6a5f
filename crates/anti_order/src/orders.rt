ghost use Rattle.std.specs.Prelude.{ℕ, ◌≡◌, List, All, IfOk, OnOk, IsTrue, true};
ghost use Rattle.anti_ids.specs.ListCalls.{pushed};
ghost use Rattle.anti_app.specs.declared.app.App.{App};
ghost use Rattle.anti_app.specs.Sound.{is_sound};
ghost use Rattle.law_causal.specs.Reads.{is_at, is_read_of, reads_of};
ghost use Rattle.law_causal.specs.Words as words;
ghost use Rattle.anti_trace.specs.Legal.{IsLegalTrace};
ghost use Rattle.anti_trace.specs.inner.Trails.{IsTrailIfKept};
ghost use Rattle.anti_order.specs.Answers.{AreAnswersOf, AreMarksOf, IsAnswer};
ghost use Rattle.anti_order.specs.inner.Grounds.{AreAnswersFor, AreGroundsOf};

use crate::answer::{OrderAnswer, SpanAnswer, SpanAnswers};
use crate::grounds::Grounds;
use crate::marks::places_of;
use crate::pieces::Marks;
use anti_app::App;
use anti_ids::NoMemory;
use anti_kind::{Actor, Birth, Entry};
use anti_past::{PlaceByMark, ReadsOfSpan, reads, reads_by_span};
use anti_trace::{Trace, Trail, is_by};
use std::alloc::Global;

/// What is answered of reads of a trace that are given by their marks, in this order. The only error is want of memory.
pub fn order_of(
    alloc: Global,
    app: &App,
    trace: &Trace,
    chain: &Marks,
) -> Result<OrderAnswer, NoMemory>
    requires sound { IsTrue (is_sound app.now) }
    requires legal { IsLegalTrace app.now trace.now }
    requires reads { (places : List ℕ) × AreMarksOf trace.now places chain.now.items
        × All (λ r. is_at (λ e. words.reads e.call) trace.now r ≡ true) places }
    ensures { IfOk result (λ answer. (places : List ℕ) → AreMarksOf trace.now places chain.now.items
        → IsAnswer app.now trace.now places answer) }
{
    let known = PlaceByMark::of(alloc, trace)?;
    let marks = chain.to_list(alloc)?;
    let reads = places_of(alloc, &known, marks.as_slice())?;
    let grounds = Grounds::of(alloc, app, trace)?;
    grounds.answer(alloc, trace, reads.as_slice())
}

// Whether an entry is a read in a span of a process.
fn is_read_of(birth: Birth, span: u32, entry: &Entry) -> bool
    ensures { result ≡ is_read_of birth span entry.now }
{
    reads(&entry.call) && is_by(Actor::Process(birth), entry) && entry.span == span
}

/// The places of the reads in a span of a process. The only error is want of memory.
pub fn reads_of(alloc: Global, trace: &Trace, birth: Birth, span: u32) -> Result<Vec<u32>, NoMemory>
    ensures { IfOk result (λ places. places.items ≡ reads_of trace.now birth span) }
{
    let mut places = Vec::new(alloc);
    for index in 0..trace.len() {
        if is_read_of(birth, span, trace.at(index)) {
            places.push(index)?;
        }
    }
    Ok(places)
}

/// What is answered of the reads of a span of a process, which is named by its birth. The only error is want of memory.
pub fn order(
    alloc: Global,
    app: &App,
    trace: &Trace,
    birth: Birth,
    span: u32,
) -> Result<OrderAnswer, NoMemory>
    requires sound { IsTrue (is_sound app.now) }
    requires legal { IsLegalTrace app.now trace.now }
    ensures { IfOk result (IsAnswer app.now trace.now (reads_of trace.now birth span)) }
{
    let reads = reads_of(alloc, trace, birth, span)?;
    let grounds = Grounds::of(alloc, app, trace)?;
    grounds.answer(alloc, trace, reads.as_slice())
}

// Adds an answer at the end.
fn add(answers: &mut SpanAnswers, answer: SpanAnswer) -> Result<(), NoMemory>
    ensures { OnOk result (answers.new ≡ pushed answers.old answer) }
{
    match answers.push(answer) {
        Ok(()) => Ok(()),
        Err(_) => Err(NoMemory),
    }
}

// What is answered of the reads of some spans.
fn answered(
    alloc: Global,
    trace: &Trace,
    grounds: &Grounds,
    spans: &[ReadsOfSpan],
) -> Result<SpanAnswers, NoMemory>
    requires grounds { (app : App) × AreGroundsOf app trace.now grounds.now }
    requires reads { All (λ s. s.reads.items ≡ reads_of trace.now s.span.birth s.span.span) spans.now }
    ensures { (app : App) → AreGroundsOf app trace.now grounds.now
        → IfOk result (λ answers. AreAnswersFor app trace.now spans.now answers.items) }
{
    let mut answers = SpanAnswers::new(alloc);
    for reads in spans {
        let answer = SpanAnswer {
            span: reads.span,
            answer: grounds.answer(alloc, trace, reads.reads.as_slice())?,
        };
        add(&mut answers, answer)?;
    }
    Ok(answers)
}

// What is answered of the reads of some spans. Where there are none, the trace is not gone along.
fn answered_of(
    alloc: Global,
    app: &App,
    trace: &Trace,
    trail: &Trail,
    spans: &[ReadsOfSpan],
) -> Result<SpanAnswers, NoMemory>
    requires sound { IsTrue (is_sound app.now) }
    requires legal { IsLegalTrace app.now trace.now }
    requires trail { IsTrailIfKept app.now trace.now trail.now }
    requires reads { All (λ s. s.reads.items ≡ reads_of trace.now s.span.birth s.span.span) spans.now }
    ensures { IfOk result (λ answers. AreAnswersFor app.now trace.now spans.now answers.items) }
{
    if spans.is_empty() {
        return Ok(SpanAnswers::new(alloc));
    }
    let grounds = Grounds::along(alloc, app, trace, trail)?;
    answered(alloc, trace, &grounds, spans)
}

/// What is answered of the reads of each span in which something was read, by the objects and places of the births of their processes, and
/// by their numbers. The losses and the pasts are found once for all of them, by the trail of the trace where that is kept. The only error is want of memory.
pub fn answers_along(
    alloc: Global,
    app: &App,
    trace: &Trace,
    trail: &Trail,
) -> Result<SpanAnswers, NoMemory>
    requires sound { IsTrue (is_sound app.now) }
    requires legal { IsLegalTrace app.now trace.now }
    requires trail { IsTrailIfKept app.now trace.now trail.now }
    ensures { IfOk result (λ answers. AreAnswersOf app.now trace.now answers.items) }
{
    let spans = reads_by_span(alloc, trace)?;
    answered_of(alloc, app, trace, trail, spans.as_slice())
}

/// The same, where the trail of the trace is found by one walk along it.
pub fn answers(alloc: Global, app: &App, trace: &Trace) -> Result<SpanAnswers, NoMemory>
    requires sound { IsTrue (is_sound app.now) }
    requires legal { IsLegalTrace app.now trace.now }
    ensures { IfOk result (λ answers. AreAnswersOf app.now trace.now answers.items) }
{
    let trail = Trail::of(alloc, app, trace.as_slice())?;
    answers_along(alloc, app, trace, &trail)
}
