ghost use Rattle.std.specs.Prelude.{◌≡◌, ◌+◌, ◌<◌, ◌≤◌, None, Some, is_some, true, IsTrue, IfOk, IfSome, OnOk};
ghost use Rattle.anti_app.specs.Sound.{is_sound};
ghost use Rattle.anti_place.specs.Placements.{placement};
ghost use Rattle.anti_place.specs.declared.placement.Placement.TheVariants.{Yes};
ghost use Rattle.anti_adversary.specs.Runs.{MissesNothing};
ghost use Rattle.anti_adversary.specs.Verdicts.{IsMiss, IsVerdict};
ghost use Rattle.anti_adversary.specs.inner.Playing.{IsWhole};
ghost use Rattle.anti_adversary.specs.inner.Searching.{IsSearched};

use crate::driver::{WholeRun, whole_run};
use crate::examined::{first_barred, first_miss};
use crate::goal::Goal;
use crate::list::{MOST_SCHEDULES, Schedules};
use crate::shorten::shortened;
use crate::shown::{with_hint, with_miss};
use crate::verdict::Verdict;
use anti_app::{App, Choices};
use anti_doctor::SpanDiagnosis;
use anti_ids::{MOST_CHOICES, NoMemory};
use anti_place::{Placement, placed};
use std::alloc::Global;

// In how many of the first runs a hint is looked for.
const MOST_HINTED: u32 = 8;

// Once all runs together have so many entries, no further schedule is begun: the first ones find most.
const MOST_ENTRIES_IN_ALL: u64 = 4_000_000;

// A run whose reads missed writes, with the number of its schedule, counted from 1.
#[derive(Drop)]
struct Missed {
    number: u32,
    entries: u32,
    span: SpanDiagnosis,
}

// What was tried so far.
#[derive(Drop)]
struct Searched {
    // how many runs missed nothing
    runs: u32,
    // how many entries all runs had together
    entries: u64,
    // a run that missed something, and whose choices are more than a document may state
    long: Option<Missed>,
    // the choices of a run in which something is missing
    hint: Option<Choices>,
}

// The choices of a run up to what is to be seen in it, without those that are not needed.
fn choices_for(
    alloc: Global,
    app: &App,
    run: &WholeRun,
    goal: Option<Goal>,
) -> Result<Option<Choices>, NoMemory>
    requires { IsTrue (is_sound app.now) }
{
    let Some(goal) = goal else {
        return Ok(None);
    };
    match run.script.get(..goal.len()) {
        Some(script) => shortened(alloc, app, script, goal),
        None => Ok(None),
    }
}

// The choices that show what is missing in a run, where something is.
fn hint_of(alloc: Global, app: &App, run: &WholeRun) -> Result<Option<Choices>, NoMemory>
    requires sound { IsTrue (is_sound app.now) }
    requires whole { IsWhole app.now run.now.trace }
{
    let Some(answer) = first_barred(alloc, app, &run.trace)? else {
        return Ok(None);
    };
    choices_for(
        alloc,
        app,
        run,
        Goal::of_answer(run.outcomes.as_slice(), &run.trace, &answer),
    )
}

impl Searched {
    // Nothing yet.
    fn new() -> Searched
        ensures none { result.runs ≡ 0 }
        ensures long { result.long ≡ None }
    {
        Searched {
            runs: 0,
            entries: 0,
            long: None,
            hint: None,
        }
    }

    // Looks in one of the first runs for a hint, unless there is one.
    fn note_hint(&mut self, alloc: Global, app: &App, run: &WholeRun) -> Result<(), NoMemory>
        requires sound { IsTrue (is_sound app.now) }
        requires whole { IsWhole app.now run.now.trace }
        ensures runs { self.new.runs ≡ self.old.runs }
        ensures long { self.new.long ≡ self.old.long }
    {
        if self.hint.is_some() || self.runs >= MOST_HINTED {
            return Ok(());
        }
        self.hint = hint_of(alloc, app, run)?;
        Ok(())
    }

    // Notes a run that missed nothing.
    fn note_in_vain(&mut self, alloc: Global, app: &App, run: &WholeRun) -> Result<(), NoMemory>
        requires sound { IsTrue (is_sound app.now) }
        requires searched { IsSearched app.now self.old }
        requires few { self.old.runs < MOST_SCHEDULES }
        requires whole { IsWhole app.now run.now.trace }
        requires nothing { MissesNothing run.now.trace }
        ensures searched { OnOk result (IsSearched app.now self.new) }
        ensures runs { OnOk result (self.new.runs ≡ self.old.runs + 1) }
    {
        self.note_hint(alloc, app, run)?;
        self.runs += 1;
        Ok(())
    }

    // What is to be shown of a run that missed something. Where one is noted whose choices are too many, of another that is as long nothing is:
    // to leave out what is not needed of it would take too long.
    fn wanted(&self, goal: Option<Goal>) -> Option<Goal> {
        let goal = goal?;
        if self.long.is_some() && goal.len() > MOST_CHOICES {
            return None;
        }
        Some(goal)
    }

    // Notes a run that missed something, and whose choices are not found to be few enough.
    fn note_long(&mut self, number: u32, entries: u32, span: SpanDiagnosis)
        ensures runs { self.new.runs ≡ self.old.runs }
        ensures first { self.old.long ≡ None → self.new.long ≡ Some (record { number = number; entries = entries; span = span }) }
        ensures later { is_some self.old.long ≡ true → self.new.long ≡ self.old.long }
    {
        if self.long.is_none() {
            self.long = Some(Missed {
                number,
                entries,
                span,
            });
        }
    }

    // What is said of the application in the end.
    fn verdict(self, alloc: Global, app: App) -> Result<(App, Verdict), NoMemory>
        requires sound { IsTrue (is_sound app) }
        requires unplaced { placement app ≡ Yes → ⊥ }
        requires searched { IsSearched app self }
        ensures sound { IfOk result (λ r. IsTrue (is_sound r.0)) }
        ensures verdict { IfOk result (λ r. IsVerdict app r.0 r.1) }
    {
        let Searched {
            runs,
            long,
            hint,
            ..
        } = self;
        if let Some(
            Missed {
                number,
                entries,
                span,
            },
        ) = long
        {
            drop(hint);
            return Ok((
                app,
                Verdict::Long {
                    number,
                    entries,
                    missed: span,
                },
            ));
        }
        let Some(choices) = hint else {
            return Ok((app, Verdict::Tried { runs, hint: None }));
        };
        let (app, hint) = with_hint(alloc, app, choices)?;
        Ok((app, Verdict::Tried { runs, hint }))
    }
}

// Looks for the choices of a run that missed something. Where they are too many, that is noted.
fn show(
    alloc: Global,
    app: App,
    searched: &mut Searched,
    number: u32,
    run: WholeRun,
    missed: SpanDiagnosis,
) -> Result<(App, Option<Verdict>), NoMemory>
    requires sound { IsTrue (is_sound app) }
    requires unplaced { placement app ≡ Yes → ⊥ }
    requires searched { IsSearched app searched.old }
    requires whole { IsWhole app run.trace }
    requires missed { IsMiss run.trace missed }
    ensures sound { IfOk result (λ r. IsTrue (is_sound r.0)) }
    ensures none { IfOk result (λ r. r.1 ≡ None → (r.0 ≡ app) × IsSearched app searched.new) }
    ensures some { IfOk result (λ r. IfSome r.1 (IsVerdict app r.0)) }
    ensures runs { searched.new.runs ≡ searched.old.runs }
{
    let goal = Goal::of_miss(run.outcomes.as_slice(), &missed);
    let Some(choices) = choices_for(alloc, &app, &run, searched.wanted(goal))? else {
        searched.note_long(number, run.trace.len(), missed);
        return Ok((app, None));
    };
    let (app, found) = with_miss(alloc, app, choices)?;
    match found {
        Some((shown, short)) => Ok((
            app,
            Some(Verdict::Found {
                number,
                shown,
                missed: short,
            }),
        )),
        None => {
            searched.note_long(number, run.trace.len(), missed);
            Ok((app, None))
        }
    }
}

// Tries the schedule of a number, counted from 0, unless so many entries were made that none is begun. The first run tells which others
// there are.
fn attempt(
    alloc: Global,
    app: App,
    schedules: &mut Schedules,
    searched: &mut Searched,
    number: u32,
) -> Result<(App, Option<Verdict>), NoMemory>
    requires sound { IsTrue (is_sound app) }
    requires unplaced { placement app ≡ Yes → ⊥ }
    requires searched { IsSearched app searched.old }
    requires number { number < MOST_SCHEDULES }
    requires few { searched.old.runs ≤ number }
    ensures sound { IfOk result (λ r. IsTrue (is_sound r.0)) }
    ensures none { IfOk result (λ r. r.1 ≡ None → (r.0 ≡ app) × IsSearched app searched.new) }
    ensures some { IfOk result (λ r. IfSome r.1 (IsVerdict app r.0)) }
    ensures few { IfOk result (λ r. searched.new.runs ≤ number + 1) }
{
    if searched.entries >= MOST_ENTRIES_IN_ALL {
        return Ok((app, None));
    }
    let Some(schedule) = schedules.get(number as usize) else {
        return Ok((app, None));
    };
    let run = whole_run(alloc, &app, &schedule)?;
    searched.entries = searched.entries.saturating_add(u64::from(run.trace.len()));
    if number == 0 {
        schedules.complete(alloc, &app, &run.trace)?;
    }
    match first_miss(alloc, &app, &run.trace)? {
        Some(missed) => show(alloc, app, searched, number + 1, run, missed),
        None => {
            searched.note_in_vain(alloc, &app, &run)?;
            Ok((app, None))
        }
    }
}

/// Looks for a run of an application in which reads miss writes, by at most 512 schedules that are unkind to it, or fewer where their runs have
/// 4,000,000 entries together, whatever its own choices are. The application is given back: with the choices of the run that is shown in the
/// place of its own, where one is. The only error is want of memory.
pub fn search(alloc: Global, app: App) -> Result<(App, Verdict), NoMemory>
    requires { IsTrue (is_sound app) }
    ensures sound { IfOk result (λ r. IsTrue (is_sound r.0)) }
    ensures verdict { IfOk result (λ r. IsVerdict app r.0 r.1) }
{
    if let Placement::Yes = placed(&app) {
        return Ok((app, Verdict::Placed));
    }
    let mut schedules = Schedules::first(alloc, &app)?;
    let mut searched = Searched::new();
    let mut app = app;
    for number in 0..MOST_SCHEDULES as u32 {
        let (back, found) = attempt(alloc, app, &mut schedules, &mut searched, number)?;
        match found {
            Some(verdict) => return Ok((back, verdict)),
            None => app = back,
        }
    }
    searched.verdict(alloc, app)
}
