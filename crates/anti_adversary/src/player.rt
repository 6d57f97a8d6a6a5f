ghost use Rattle.std.specs.Prelude.{◌≡◌, [], IsTrue, IfOk, OnOk, List as Items};
ghost use Rattle.anti_app.specs.declared.app.App.{App};
ghost use Rattle.anti_app.specs.declared.app.Choice.{Choice};
ghost use Rattle.anti_app.specs.Sound.{is_sound};
ghost use Rattle.anti_trace.specs.Legal.{IsLegalTrace};
ghost use Rattle.anti_adversary.specs.Runs.{MakesMarks};
ghost use Rattle.anti_adversary.specs.inner.Playing.{HasMade, IsPlayer, IsWhole, with_made};

use crate::named::names_what_is_there;
use anti_app::{App, Choice};
use anti_ids::{List, NoMemory};
use anti_kind::{Birth, Entry};
use anti_play::World;
use anti_trace::{Mark, Trace};
use std::alloc::Global;

/// A run of choices, each of which made an entry.
#[derive(Drop)]
pub(crate) struct Player {
    world: World,
    marks: List<Mark>,
}

impl Player {
    /// The run of no choices.
    pub(crate) fn new(alloc: Global, app: &App) -> Result<Player, NoMemory>
        requires { IsTrue (is_sound app.now) }
        ensures { IfOk result (λ player. HasMade app.now player []) }
    {
        Ok(Player {
            world: World::new(alloc, app)?,
            marks: List::new(alloc),
        })
    }

    /// Makes a choice, and tells the mark of its entry. One that names what is not there, or makes no entry, leaves the run as it was.
    pub(crate) fn make(&mut self, app: &App, choice: Choice) -> Result<Option<Mark>, NoMemory>
        requires sound { IsTrue (is_sound app.now) }
        requires player { IsPlayer app.now self.old }
        ensures { (choices : Items Choice) → HasMade app.now self.old choices
            → IfOk result (λ mark. HasMade app.now self.new (with_made mark choice choices)) }
    {
        if matches!(choice, Choice::Finish) || !names_what_is_there(app, &choice) {
            return Ok(None);
        }
        let Some(object) = self.world.object_of(app, &choice) else {
            return Ok(None);
        };
        let Some(history) = self.world.history(object) else {
            return Ok(None);
        };
        let before = history.len();
        if !self.world.choose(app, &choice)? {
            return Ok(None);
        }
        let mark = Mark {
            object,
            place: before as u32 + 1,
        };
        self.marks.add(mark)?;
        Ok(Some(mark))
    }

    /// The object at which a process asks for its next call: none where it has ended.
    pub(crate) fn asks_at(&self, app: &App, birth: Birth) -> Option<u32>
        requires sound { IsTrue (is_sound app.now) }
        requires player { IsPlayer app.now self.now }
    {
        self.world.asks_at(birth)
    }

    /// What was done at an object.
    pub(crate) fn history(&self, object: u32) -> &[Entry] {
        match self.world.history(object) {
            Some(history) => history,
            None => &[],
        }
    }

    /// The marks of the entries, in the order of the choices, and the trace.
    pub(crate) fn over(self, alloc: Global, app: &App) -> Result<(List<Mark>, Trace), NoMemory>
        requires sound { IsTrue (is_sound app.now) }
        requires player { IsPlayer app.now self }
        ensures made { (choices : Items Choice) → HasMade app.now self choices
            → IfOk result (λ over. MakesMarks app.now [] choices over.0.items over.1) }
        ensures legal { IfOk result (λ over. IsLegalTrace app.now over.1) }
    {
        let Player { world, marks } = self;
        let (trace, _) = world.over(alloc)?;
        Ok((marks, trace))
    }

    /// Makes all that is left, and tells the trace.
    pub(crate) fn finish(self, alloc: Global, app: &App) -> Result<Trace, NoMemory>
        requires sound { IsTrue (is_sound app.now) }
        requires player { IsPlayer app.now self }
        ensures { IfOk result (λ trace. IsWhole app.now trace) }
    {
        let Player { mut world, marks } = self;
        drop(marks);
        world.finish(app)?;
        let (trace, _) = world.over(alloc)?;
        Ok(trace)
    }
}
