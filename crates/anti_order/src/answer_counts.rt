ghost use Rattle.std.specs.Prelude.{◌≡◌, ◌<◌, length, count_by, All, IfOk, IsTrue};
ghost use Rattle.anti_app.specs.Sound.{is_sound};
ghost use Rattle.anti_trace.specs.Legal.{IsLegalTrace};
ghost use Rattle.anti_trace.specs.inner.Trails.{IsTrailIfKept};
ghost use Rattle.anti_past.specs.Told.{AreReadsBySpan};
ghost use Rattle.anti_order.specs.Tallies.{AreCountsOf};
ghost use Rattle.anti_order.specs.inner.Grounds.{has_unsettled};

use crate::grounds::first_unsettled;
use anti_app::App;
use anti_ids::NoMemory;
use anti_past::{Course, Past, ReadsOfSpan, reads_by_span};
use anti_trace::{Trace, Trail};
use std::alloc::Global;

/// How many spans with a read have which answer.
#[derive(Clone, Copy)]
pub struct AnswerCounts {
    /// An order explains the reads.
    pub ordered: usize,
    /// A read is not settled.
    pub unguarded: usize,
    /// The trace loses an id.
    pub lossy: usize,
}

// Whether some of these reads is not settled.
fn has_unsettled(pasts: &[Option<Past>], reads: &[u32]) -> bool
    requires { All (λ r. r < length pasts.now) reads.now }
    ensures { result ≡ has_unsettled pasts.now reads.now }
{
    first_unsettled(pasts, reads).is_some()
}

// How many of some spans have a read that is not settled.
fn count_unsettled(pasts: &[Option<Past>], spans: &[ReadsOfSpan]) -> usize
    requires { All (λ s. All (λ r. r < length pasts.now) s.reads.items) spans.now }
    ensures { result ≡ count_by (λ s. has_unsettled pasts.now s.reads.items) spans.now }
{
    let mut count = 0;
    for reads in spans {
        if has_unsettled(pasts, reads.reads.as_slice()) {
            count += 1;
        }
    }
    count
}

// How many of these spans, which are those with a read, have which answer. Where there are none, the trace is not gone along.
fn counted(
    alloc: Global,
    app: &App,
    trace: &Trace,
    trail: &Trail,
    spans: &[ReadsOfSpan],
) -> Result<AnswerCounts, NoMemory>
    requires sound { IsTrue (is_sound app.now) }
    requires legal { IsLegalTrace app.now trace.now }
    requires trail { IsTrailIfKept app.now trace.now trail.now }
    requires spans { AreReadsBySpan trace.now spans.now }
    ensures { IfOk result (AreCountsOf app.now trace.now) }
{
    if spans.is_empty() {
        return Ok(AnswerCounts {
            ordered: 0,
            unguarded: 0,
            lossy: 0,
        });
    }
    match Course::along(alloc, app, trace, trail)? {
        Course::Loss(_) => Ok(AnswerCounts {
            ordered: 0,
            unguarded: 0,
            lossy: spans.len(),
        }),
        Course::NoLoss(pasts) => {
            let unguarded = count_unsettled(pasts.as_slice(), spans);
            Ok(AnswerCounts {
                ordered: spans.len() - unguarded,
                unguarded,
                lossy: 0,
            })
        }
    }
}

/// How many spans with a read have which answer, by the trail of the trace where that is kept. The orders are not made. The only error is want of memory.
pub fn count_answers_along(
    alloc: Global,
    app: &App,
    trace: &Trace,
    trail: &Trail,
) -> Result<AnswerCounts, NoMemory>
    requires sound { IsTrue (is_sound app.now) }
    requires legal { IsLegalTrace app.now trace.now }
    requires trail { IsTrailIfKept app.now trace.now trail.now }
    ensures { IfOk result (AreCountsOf app.now trace.now) }
{
    let spans = reads_by_span(alloc, trace)?;
    counted(alloc, app, trace, trail, spans.as_slice())
}

/// How many spans with a read have which answer. The trail of the trace is found by one walk along it.
pub fn count_answers(alloc: Global, app: &App, trace: &Trace) -> Result<AnswerCounts, NoMemory>
    requires sound { IsTrue (is_sound app.now) }
    requires legal { IsLegalTrace app.now trace.now }
    ensures { IfOk result (AreCountsOf app.now trace.now) }
{
    let trail = Trail::of(alloc, app, trace.as_slice())?;
    count_answers_along(alloc, app, trace, &trail)
}
