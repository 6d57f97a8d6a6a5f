ghost use Rattle.std.specs.Prelude.{IsTrue, IfOk};
ghost use Rattle.anti_app.specs.Sound.{is_sound};
ghost use Rattle.anti_trace.specs.Legal.{IsLegalTrace};
ghost use Rattle.anti_adversary.specs.inner.Playing.{IsPlayer};

use crate::stage::{Outcome, Stage};
use anti_app::App;
use anti_doctor::{Diagnosis, Findings, SpanDiagnosis, examine};
use anti_ids::NoMemory;
use anti_kind::{Actor, Birth, Entry};
use anti_order::{OrderAnswer, SpanAnswer, answers};
use anti_past::{Span, reads};
use anti_trace::{Mark, Trace};
use std::alloc::Global;

/// What is to be seen in a run, by the numbers of choices in its schedule.
#[derive(Clone, Copy)]
pub(crate) enum Goal {
    /// That a read misses a write.
    Misses { read: usize, write: usize },
    /// That an entry bars an order, among whose reads this is the first. The entry may come before the read, and behind it.
    Bars { entry: usize, read: usize },
}

// The number of the choice that made the entry with a mark.
fn number_of(outcomes: &[Option<Outcome>], mark: Mark) -> Option<usize> {
    outcomes.iter().position(|outcome| match outcome {
        Some(outcome) => outcome.mark == mark,
        None => false,
    })
}

// The process and the span of an entry.
fn span_of(trace: &Trace, mark: Mark) -> Option<(Birth, u32)> {
    let entry = trace.as_slice().iter().find(|entry| entry.object == mark.object
        && entry.place == mark.place)?;
    match entry.actor {
        Actor::Process(birth) => Some((birth, entry.span)),
        Actor::Carrier(_) | Actor::Newborn => None,
    }
}

// Whether a read and a write are among findings.
fn has(findings: &Findings, read: Mark, write: Mark) -> bool {
    findings
        .as_slice()
        .iter()
        .any(|finding| finding.read == read && finding.write == write)
}

// Whether a read misses a write.
fn misses(
    alloc: Global,
    app: &App,
    trace: &Trace,
    read: Mark,
    write: Mark,
) -> Result<bool, NoMemory>
    requires sound { IsTrue (is_sound app.now) }
    requires legal { IsLegalTrace app.now trace.now }
{
    let Some((birth, span)) = span_of(trace, read) else {
        return Ok(false);
    };
    match examine(alloc, app, trace, birth, span)? {
        Diagnosis::Misses(findings) => Ok(has(&findings, read, write)),
        Diagnosis::Sound(_) => Ok(false),
    }
}

// The mark of the entry that bars an order.
fn bar_of(answer: &SpanAnswer) -> Option<Mark> {
    match answer.answer {
        OrderAnswer::Lossy(mark) | OrderAnswer::Unguarded(mark) => Some(mark),
        OrderAnswer::Order(_) => None,
    }
}

// Whether an entry is a read of a span.
fn is_read_of(entry: &Entry, span: Span) -> bool {
    match entry.actor {
        Actor::Process(birth) => {
            birth == span.birth && entry.span == span.span && reads(&entry.call)
        }
        Actor::Carrier(_) | Actor::Newborn => false,
    }
}

// The mark of the first read of a span.
fn first_read(trace: &Trace, span: Span) -> Option<Mark> {
    let entry = trace
        .as_slice()
        .iter()
        .find(|entry| is_read_of(entry, span))?;
    Some(Mark {
        object: entry.object,
        place: entry.place,
    })
}

// Whether an entry bars an order.
fn bars(alloc: Global, app: &App, trace: &Trace, mark: Mark) -> Result<bool, NoMemory>
    requires sound { IsTrue (is_sound app.now) }
    requires legal { IsLegalTrace app.now trace.now }
{
    let answers = answers(alloc, app, trace)?;
    Ok(
        answers
            .as_slice()
            .iter()
            .any(|answer| bar_of(answer) == Some(mark)),
    )
}

impl Goal {
    /// That the first read that missed something goes on to miss it.
    pub(crate) fn of_miss(outcomes: &[Option<Outcome>], missed: &SpanDiagnosis) -> Option<Goal> {
        let Diagnosis::Misses(findings) = &missed.diagnosis else {
            return None;
        };
        let finding = findings.as_slice().first()?;
        Some(Goal::Misses {
            read: number_of(outcomes, finding.read)?,
            write: number_of(outcomes, finding.write)?,
        })
    }

    /// That the entry that bars an order goes on to bar it.
    pub(crate) fn of_answer(
        outcomes: &[Option<Outcome>],
        trace: &Trace,
        answer: &SpanAnswer,
    ) -> Option<Goal> {
        let mark = bar_of(answer)?;
        let read = first_read(trace, answer.span)?;
        Some(Goal::Bars {
            entry: number_of(outcomes, mark)?,
            read: number_of(outcomes, read)?,
        })
    }

    /// How many choices there are up to the last that shows it.
    pub(crate) fn len(self) -> usize {
        match self {
            Goal::Misses { read, write } => read.max(write).saturating_add(1),
            Goal::Bars { entry, read } => read.max(entry).saturating_add(1),
        }
    }

    /// Whether it is to be seen in a run, which is given up.
    pub(crate) fn stands(self, alloc: Global, app: &App, stage: Stage) -> Result<bool, NoMemory>
        requires sound { IsTrue (is_sound app.now) }
        requires player { IsPlayer app.now stage.player }
    {
        match self {
            Goal::Misses { read, write } => {
                let (Some(read), Some(write)) = (stage.outcome(read), stage.outcome(write)) else {
                    return Ok(false);
                };
                let trace = stage.over(alloc, app)?;
                misses(alloc, app, &trace, read.mark, write.mark)
            }
            Goal::Bars { entry, .. } => {
                let Some(entry) = stage.outcome(entry) else {
                    return Ok(false);
                };
                let trace = stage.over(alloc, app)?;
                bars(alloc, app, &trace, entry.mark)
            }
        }
    }
}
