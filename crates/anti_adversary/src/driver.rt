ghost use Rattle.std.specs.Prelude.{◌≡◌, IsTrue, IfOk, OnOk};
ghost use Rattle.anti_app.specs.Sound.{is_sound};
ghost use Rattle.anti_adversary.specs.inner.Playing.{IsPlayer, IsWhole};

use crate::brought::{add_write, region_started, write_brought};
use crate::live::{Live, LiveProcesses};
use crate::meaning::Meaning;
use crate::schedule::Schedule;
use crate::shipments::Shipments;
use crate::stage::{Outcome, Stage};
use anti_app::App;
use anti_ids::{MOST_SERVICES, MOST_STORES, MOST_UNITS, NoMemory};
use anti_kind::Birth;
use anti_trace::{Mark, Trace};
use std::alloc::Global;

// More entries than any run has: no object has more than its units.
const MOST_ENTRIES: u32 = (MOST_STORES + MOST_SERVICES) as u32 * MOST_UNITS;

/// Makes a run by a schedule.
#[derive(Drop)]
pub(crate) struct Driver {
    pub(crate) stage: Stage,
    /// What was done so far.
    pub(crate) script: Vec<Meaning>,
    pub(crate) shipments: Shipments,
    pub(crate) live: LiveProcesses,
    /// How many entries the store of each subscription had when it had nothing to be pulled.
    pub(crate) emptied: Vec<usize>,
}

impl Driver {
    pub(crate) fn new(alloc: Global, app: &App) -> Result<Driver, NoMemory>
        requires { IsTrue (is_sound app.now) }
        ensures { IfOk result (λ driver. IsPlayer app.now driver.stage.player) }
    {
        let mut emptied = Vec::new(alloc);
        for _ in 0..app.subs.len() {
            emptied.push(usize::MAX)?;
        }
        Ok(Driver {
            stage: Stage::new(alloc, app)?,
            script: Vec::new(alloc),
            shipments: Shipments::new(alloc),
            live: LiveProcesses::new(alloc, app)?,
            emptied,
        })
    }

    /// Makes a run by a schedule, until nothing more can be made by it.
    pub(crate) fn drive(&mut self, app: &App, schedule: &Schedule) -> Result<(), NoMemory>
        requires sound { IsTrue (is_sound app.now) }
        requires player { IsPlayer app.now self.old.stage.player }
        ensures { OnOk result (IsPlayer app.now self.new.stage.player) }
    {
        for _ in 0..MOST_ENTRIES {
            if !self.turn(app, schedule)? {
                return Ok(());
            }
        }
        Ok(())
    }

    // Makes one entry, and tells whether there was one to be made.
    fn turn(&mut self, app: &App, schedule: &Schedule) -> Result<bool, NoMemory>
        requires sound { IsTrue (is_sound app.now) }
        requires player { IsPlayer app.now self.old.stage.player }
        ensures { OnOk result (IsPlayer app.now self.new.stage.player) }
    {
        if !schedule.ships_last && self.ship(app, schedule)? {
            return Ok(true);
        }
        if self.go_on(app)? {
            return Ok(true);
        }
        if self.start(app, schedule)? {
            return Ok(true);
        }
        if schedule.ships_last && self.ship(app, schedule)? {
            return Ok(true);
        }
        self.release(app)
    }

    /// Makes a choice, and tells whether it made an entry.
    pub(crate) fn play(&mut self, app: &App, meaning: Meaning) -> Result<bool, NoMemory>
        requires sound { IsTrue (is_sound app.now) }
        requires player { IsPlayer app.now self.old.stage.player }
        ensures { OnOk result (IsPlayer app.now self.new.stage.player) }
    {
        Ok(self.make(app, meaning)?.is_some())
    }

    /// Makes a choice, and tells the mark of its entry.
    pub(crate) fn make(&mut self, app: &App, meaning: Meaning) -> Result<Option<Mark>, NoMemory>
        requires sound { IsTrue (is_sound app.now) }
        requires player { IsPlayer app.now self.old.stage.player }
        ensures { OnOk result (IsPlayer app.now self.new.stage.player) }
    {
        let number = self.script.len();
        let Some((_, outcome)) = self.stage.play(app, meaning)? else {
            return Ok(None);
        };
        self.script.push(meaning)?;
        self.follow(app, meaning, number, outcome.mark)?;
        Ok(Some(outcome.mark))
    }

    // Notes what the choice of a number gives to do, which made an entry.
    fn follow(
        &mut self,
        app: &App,
        meaning: Meaning,
        number: usize,
        mark: Mark,
    ) -> Result<(), NoMemory>
        ensures { OnOk result (self.new.stage ≡ self.old.stage) }
    {
        let Mark { object, place } = mark;
        let brought = self.stage.brought_at(object);
        self.live.stir(object, brought)?;
        if let Some(region) = region_started(app, meaning) {
            return self.live.add(Live {
                started: number,
                birth: Birth { object, place },
                region,
                call: 0,
            });
        }
        let write = match self.stage.last_at(object) {
            Some(entry) => write_brought(app, entry),
            None => None,
        };
        match write {
            Some((written, parts)) => {
                add_write(&mut self.shipments, app, number, &written, parts)
            }
            None => Ok(()),
        }
    }
}

/// A run that was made by a schedule, and then to its end.
#[derive(Drop)]
pub(crate) struct WholeRun {
    pub trace: Trace,
    /// What the schedule did.
    pub script: Vec<Meaning>,
    /// What it came to.
    pub outcomes: Vec<Option<Outcome>>,
}

/// The run that a schedule makes, in which nothing is left to be made.
pub(crate) fn whole_run(alloc: Global, app: &App, schedule: &Schedule) -> Result<WholeRun, NoMemory>
    requires { IsTrue (is_sound app.now) }
    ensures { IfOk result (λ run. IsWhole app.now run.trace) }
{
    let mut driver = Driver::new(alloc, app)?;
    driver.drive(app, schedule)?;
    let Driver {
        stage,
        script,
        shipments,
        live,
        emptied,
    } = driver;
    drop(shipments);
    drop(live);
    drop(emptied);
    let (trace, outcomes) = stage.finish(alloc, app)?;
    Ok(WholeRun {
        trace,
        script,
        outcomes,
    })
}
