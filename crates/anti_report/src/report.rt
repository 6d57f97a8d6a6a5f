ghost use Rattle.std.specs.Prelude.{IfOk, IsTrue};
ghost use Rattle.anti_app.specs.Sound.{is_sound};
ghost use Rattle.anti_trace.specs.Legal.{IsLegalTrace};
ghost use Rattle.anti_trace.specs.inner.Trails.{IsAftermathOf};
ghost use Rattle.anti_report.specs.Report.{IsTold};

use anti_app::{App, Waits};
use anti_ids::NoMemory;
use anti_order::{SpanAnswers, answers_along};
use anti_trace::{Aftermath, Ends, Trace};
use std::alloc::Global;
use std::marker::Model;

/// What a record tells of a run, before it is text: what happened, which choices made no entry, how each process ended, and what is answered
/// of the reads of each span. Contracts see the four lists.
#[derive(Drop)]
pub struct Report<'t, 'w> {
    /// What happened.
    pub trace: &'t Trace,
    /// The numbers, counted from 1, of the choices that made no entry.
    pub waits: &'w Waits,
    /// How each process ended.
    pub ends: Ends,
    /// What is answered of the reads of each span.
    pub spans: SpanAnswers,
}

impl<'t, 'w> Model for Report<'t, 'w> {
    ghost use Rattle.anti_report.specs.Report.{Told};

    ghost Value = { Told };

    ghost view = { λ r. record { entries = r.trace.now; waits = r.waits.now.items; ends = r.ends.items; spans = r.spans.items } };
}

impl<'t, 'w> Report<'t, 'w> {
    /// The report of a run of an application, of whose processes this is left. What is answered of the spans is found by one walk along the
    /// trace.
    pub fn along(
        alloc: Global,
        app: &App,
        trace: &'t Trace,
        waits: &'w Waits,
        after: Aftermath,
    ) -> Result<Report<'t, 'w>, NoMemory>
        requires sound { IsTrue (is_sound app.now) }
        requires legal { IsLegalTrace app.now trace.now }
        requires after { IsAftermathOf app.now trace.now after }
        ensures { IfOk result (IsTold app.now trace.now waits.now.items) }
    {
        let Aftermath { ends, trail } = after;
        let spans = answers_along(alloc, app, trace, &trail)?;
        Ok(Report {
            trace,
            waits,
            ends,
            spans,
        })
    }

    /// The report of a run of an application. What is left of its processes is found by one more walk along the trace.
    pub fn of(
        alloc: Global,
        app: &App,
        trace: &'t Trace,
        waits: &'w Waits,
    ) -> Result<Report<'t, 'w>, NoMemory>
        requires sound { IsTrue (is_sound app.now) }
        requires legal { IsLegalTrace app.now trace.now }
        ensures { IfOk result (IsTold app.now trace.now waits.now.items) }
    {
        let after = Aftermath::of(alloc, app, trace.as_slice())?;
        Report::along(alloc, app, trace, waits, after)
    }
}
