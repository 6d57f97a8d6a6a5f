ghost use Rattle.std.specs.Prelude.{◌≡◌, ◌++◌, List, [], ◌∷◌, map, All, IfOk, OnOk, IsTrue};
ghost use Rattle.anti_app.specs.declared.app.App.{App};
ghost use Rattle.anti_app.specs.Sound.{is_sound};
ghost use Rattle.anti_ids.specs.ListCalls.{pushed};
ghost use Rattle.anti_trace.specs.Legal.{IsLegalTrace};
ghost use Rattle.anti_trace.specs.inner.Trails.{IsTrailIfKept};
ghost use Rattle.anti_past.specs.declared.span_reads.Span.{Span};
ghost use Rattle.anti_past.specs.inner.Keys.{span_of};
ghost use Rattle.anti_order.specs.inner.Grounds.{AreGroundsOf};
ghost use Rattle.anti_session.specs.Members.{members};
ghost use Rattle.anti_session.specs.Sessions.{AreSessionAnswersOf, AreSessionsOf};
ghost use Rattle.anti_session.specs.inner.Indexed.{IsIndexOf};
ghost use Rattle.anti_session.specs.inner.Listed.{AreAnswersFor, AreListed, AreMembersBySession};

use crate::laws::members_are_a_chain;
use crate::session_index::SessionIndex;
use crate::span_members::members_of;
use anti_app::App;
use anti_ids::NoMemory;
use anti_order::{Grounds, SpanAnswer, SpanAnswers};
use anti_past::{ReadsOfSpan, Span, SpanKey, Spans};
use anti_trace::{Trace, Trail};
use std::alloc::Global;

// Adds a span with its members, where it is a session.
fn add_session(
    alloc: Global,
    index: &SessionIndex,
    trace: &Trace,
    key: SpanKey,
    listed: &mut Vec<ReadsOfSpan>,
) -> Result<(), NoMemory>
    requires { IsIndexOf trace.now index.now }
    ensures { (among : List Span) → AreListed trace.now among listed.old.items
        → OnOk result (AreListed trace.now (among ++ span_of key ∷ []) listed.new.items) }
{
    let birth = key.birth();
    if !index.is_requested(trace, birth) {
        return Ok(());
    }
    let reads = members_of(alloc, index, trace, birth, key.span)?;
    if reads.is_empty() {
        return Ok(());
    }
    let span = Span {
        birth,
        span: key.span,
    };
    listed.push(ReadsOfSpan { span, reads })?;
    Ok(())
}

// Those of some spans that are sessions, each with its members.
fn sessions_among(
    alloc: Global,
    index: &SessionIndex,
    trace: &Trace,
    keys: &[SpanKey],
) -> Result<Vec<ReadsOfSpan>, NoMemory>
    requires { IsIndexOf trace.now index.now }
    ensures { IfOk result (λ listed. AreListed trace.now (map span_of keys.now) listed.items) }
{
    let mut listed = Vec::new(alloc);
    for key in keys {
        add_session(alloc, index, trace, *key, &mut listed)?;
    }
    Ok(listed)
}

// The sessions, each with its members.
fn members_by_session(alloc: Global, trace: &Trace) -> Result<Vec<ReadsOfSpan>, NoMemory>
    requires { (app : App) × IsLegalTrace app trace.now }
    ensures { IfOk result (λ listed. AreMembersBySession trace.now listed.items) }
{
    let index = SessionIndex::of(alloc, trace)?;
    let keys = index.keys(alloc)?;
    sessions_among(alloc, &index, trace, keys.as_slice())
}

// The spans, without their members.
fn spans_of(alloc: Global, listed: &[ReadsOfSpan]) -> Result<Spans, NoMemory>
    ensures { IfOk result (λ spans. spans.items ≡ map (λ s. s.span) listed.now) }
{
    let mut spans = Spans::new(alloc);
    for session in listed {
        match spans.push(session.span) {
            Ok(()) => {}
            Err(_) => return Err(NoMemory),
        }
    }
    Ok(spans)
}

/// The sessions of a trace: the spans of the processes that requests began, where these or the calls that they waited for read something.
/// They stand by the objects and places of the births of their processes, and by their numbers. The only error is want of memory.
pub fn sessions(alloc: Global, app: &App, trace: &Trace) -> Result<Spans, NoMemory>
    requires sound { IsTrue (is_sound app.now) }
    requires legal { IsLegalTrace app.now trace.now }
    ensures { IfOk result (λ spans. AreSessionsOf trace.now spans.items) }
{
    let _ = app;
    let listed = members_by_session(alloc, trace)?;
    spans_of(alloc, listed.as_slice())
}

// Adds an answer at the end.
fn add(answers: &mut SpanAnswers, answer: SpanAnswer) -> Result<(), NoMemory>
    ensures { OnOk result (answers.new ≡ pushed answers.old answer) }
{
    match answers.push(answer) {
        Ok(()) => Ok(()),
        Err(_) => Err(NoMemory),
    }
}

// What is answered of the members of some sessions.
fn answered(
    alloc: Global,
    app: &App,
    trace: &Trace,
    grounds: &Grounds,
    listed: &[ReadsOfSpan],
) -> Result<SpanAnswers, NoMemory>
    requires legal { IsLegalTrace app.now trace.now }
    requires grounds { AreGroundsOf app.now trace.now grounds.now }
    requires members { All (λ s. s.reads.items ≡ members trace.now s.span.birth s.span.span) listed.now }
    ensures { IfOk result (λ answers. AreAnswersFor app.now trace.now listed.now answers.items) }
{
    let _ = app;
    members_are_a_chain();
    let mut answers = SpanAnswers::new(alloc);
    for session in listed {
        let answer = SpanAnswer {
            span: session.span,
            answer: grounds.answer(alloc, trace, session.reads.as_slice())?,
        };
        add(&mut answers, answer)?;
    }
    Ok(answers)
}

// What is answered of the members of some sessions. Where there are none, the trace is not gone along.
fn answered_of(
    alloc: Global,
    app: &App,
    trace: &Trace,
    trail: &Trail,
    listed: &[ReadsOfSpan],
) -> Result<SpanAnswers, NoMemory>
    requires sound { IsTrue (is_sound app.now) }
    requires legal { IsLegalTrace app.now trace.now }
    requires trail { IsTrailIfKept app.now trace.now trail.now }
    requires members { All (λ s. s.reads.items ≡ members trace.now s.span.birth s.span.span) listed.now }
    ensures { IfOk result (λ answers. AreAnswersFor app.now trace.now listed.now answers.items) }
{
    if listed.is_empty() {
        return Ok(SpanAnswers::new(alloc));
    }
    let grounds = Grounds::along(alloc, app, trace, trail)?;
    answered(alloc, app, trace, &grounds, listed)
}

/// What is answered of the members of each session. The losses and the pasts are found once for all of them, by the trail of the trace
/// where that is kept. The only error is want of memory.
pub fn session_answers(
    alloc: Global,
    app: &App,
    trace: &Trace,
    trail: &Trail,
) -> Result<SpanAnswers, NoMemory>
    requires sound { IsTrue (is_sound app.now) }
    requires legal { IsLegalTrace app.now trace.now }
    requires trail { IsTrailIfKept app.now trace.now trail.now }
    ensures { IfOk result (λ answers. AreSessionAnswersOf app.now trace.now answers.items) }
{
    let listed = members_by_session(alloc, trace)?;
    answered_of(alloc, app, trace, trail, listed.as_slice())
}
