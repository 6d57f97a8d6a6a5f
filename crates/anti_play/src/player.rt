ghost use Rattle.std.specs.Prelude.{◌≡◌, ℕ, ◌+◌, ◌<◌, [], length, IfOk, OnOk, IsTrue};
ghost use Rattle.anti_ids.specs.List.{plain};
ghost use Rattle.anti_app.specs.Sound.{is_sound, is_sound_choice};
ghost use Rattle.anti_play.specs.Schedule.{Run, trace_of, waits_of};
ghost use Rattle.anti_trace.specs.Legal.{IsLegalTrace};
ghost use Rattle.anti_trace.specs.inner.Trails.{IsAftermathOf};
ghost use Rattle.anti_play.specs.inner.Standing.{IsWorldOf, WorldStands};
ghost use Rattle.anti_play.specs.inner.Closing.{HasPlayed, Steps};

use crate::world::World;
use anti_app::{App, Choice, Waits};
use anti_ids::{List, NoMemory};
use anti_trace::{Aftermath, Trace};
use std::alloc::Global;

/// What the choices of an application made.
#[derive(Drop)]
pub struct Played {
    /// What happened.
    pub trace: Trace,
    /// The choices that were waits.
    pub waits: Waits,
    /// How each process ended, and what they carried into their reads, looks and posts.
    pub after: Aftermath,
}

impl World {
    // Makes a choice, and tells whether it was no wait.
    fn make(&mut self, app: &App, choice: &Choice) -> Result<bool, NoMemory>
        requires sound { IsTrue (is_sound app.now) }
        requires named { IsTrue (is_sound_choice app.now choice.now) }
        requires world { IsWorldOf app.now self.old }
        ensures { (run : Run) (number : ℕ) → WorldStands app.now self.old run.trace
            → IfOk result (λ made. Steps app.now run number choice.now made self.new) }
    {
        match choice {
            Choice::Finish => {
                self.finish(app)?;
                Ok(true)
            }
            _ => self.choose(app, choice),
        }
    }

    // Makes the choice behind so many others, and adds its number to the waits if it is one.
    fn step(&mut self, app: &App, before: usize, waits: &mut Waits) -> Result<(), NoMemory>
        requires sound { IsTrue (is_sound app.now) }
        requires there { before < length app.now.choices.items }
        requires played { HasPlayed app.now before self.old waits.old }
        ensures { OnOk result (HasPlayed app.now (before + 1) self.new waits.new) }
    {
        if self.make(app, app.choices.at(before))? {
            return Ok(());
        }
        waits.add(before as u32 + 1)
    }

    // Makes all choices, and tells which were waits.
    fn step_all(&mut self, app: &App) -> Result<Waits, NoMemory>
        requires sound { IsTrue (is_sound app.now) }
        requires world { WorldStands app.now self.old [] }
        ensures { IfOk result (λ waits. HasPlayed app.now (length app.now.choices.items) self.new waits) }
    {
        let mut waits = List::new(self.alloc);
        for before in 0..app.choices.len() {
            self.step(app, before, &mut waits)?;
        }
        Ok(waits)
    }
}

/// Makes all choices of a sound application, in their order.
pub fn play(alloc: Global, app: &App) -> Result<Played, NoMemory>
    requires { IsTrue (is_sound app.now) }
    ensures trace { IfOk result (λ p. p.trace ≡ trace_of app.now) }
    ensures waits { IfOk result (λ p. p.waits ≡ plain (waits_of app.now)) }
    ensures after { IfOk result (λ p. IsAftermathOf app.now p.trace p.after) }
    ensures legal { IfOk result (λ p. IsLegalTrace app.now p.trace) }
{
    let mut world = World::new(alloc, app)?;
    let waits = world.step_all(app)?;
    let (trace, after) = world.over(alloc)?;
    Ok(Played {
        trace,
        waits,
        after,
    })
}
