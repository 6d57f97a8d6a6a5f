ghost use Rattle.std.specs.Prelude.{IsTrue, IfOk, OnOk};
ghost use Rattle.anti_app.specs.Sound.{is_sound};
ghost use Rattle.anti_adversary.specs.inner.Playing.{IsPlayer};

use crate::goal::Goal;
use crate::meaning::Meaning;
use crate::stage::Stage;
use anti_app::{App, Choices};
use anti_ids::{List, NoMemory};
use std::alloc::Global;

// How often choices are tried to be left out, at most.
const MOST_TRIES: u32 = 512;

// How many choices are gone through in all tries together, at most: one try of a long schedule takes as long as many of a short one.
const MOST_REPLAYED: usize = 4_000_000;

// How many rounds of tries there are: at first half of all choices are left out at once, then a quarter, and at last single ones, again
// and again.
const ROUNDS: u32 = 20;

// Some choices of a schedule: which of them made entries, and in which words.
#[derive(Drop)]
struct Kept {
    kept: Vec<bool>,
    choices: Choices,
}

// Makes those of the choices again that are kept, but for a stretch of them. What rests on a choice that is left out is left out, too.
fn replay(
    alloc: Global,
    app: &App,
    script: &[Meaning],
    kept: &[bool],
    stretch: (usize, usize),
) -> Result<(Stage, Kept), NoMemory>
    requires { IsTrue (is_sound app.now) }
    ensures { IfOk result (λ replayed. IsPlayer app.now replayed.0.player) }
{
    let mut stage = Stage::new(alloc, app)?;
    let mut now = Kept {
        kept: Vec::new(alloc),
        choices: List::new(alloc),
    };
    for (number, meaning) in script.iter().enumerate() {
        let tried = kept.get(number) == Some(&true) && (number < stretch.0 || stretch.1 <= number);
        now.replay_one(app, &mut stage, *meaning, tried)?;
    }
    Ok((stage, now))
}

impl Kept {
    // Makes one choice more, or leaves it out.
    fn replay_one(
        &mut self,
        app: &App,
        stage: &mut Stage,
        meaning: Meaning,
        tried: bool,
    ) -> Result<(), NoMemory>
        requires sound { IsTrue (is_sound app.now) }
        requires player { IsPlayer app.now stage.old.player }
        ensures { OnOk result (IsPlayer app.now stage.new.player) }
    {
        let made = if tried {
            stage.play(app, meaning)?
        } else {
            None
        };
        match made {
            Some((choice, _)) => {
                self.choices.add(choice)?;
                self.kept.push(true)?;
                Ok(())
            }
            None => {
                self.kept.push(false)?;
                stage.pass()
            }
        }
    }

    // Whether some choice of a stretch is kept.
    fn has_some(&self, stretch: (usize, usize)) -> bool {
        match self.kept.get(stretch.0..stretch.1) {
            Some(kept) => kept.iter().any(|kept| *kept),
            None => false,
        }
    }
}

// What is left of the choices of a schedule, how often more may still be left out, and how many choices may still be gone through for it.
#[derive(Drop)]
struct Shortening {
    now: Kept,
    tries: u32,
    left: usize,
}

impl Shortening {
    // Leaves out a stretch of choices, if the goal stands without them.
    fn leave_out(
        &mut self,
        alloc: Global,
        app: &App,
        script: &[Meaning],
        goal: Goal,
        stretch: (usize, usize),
    ) -> Result<(), NoMemory>
        requires { IsTrue (is_sound app.now) }
    {
        if self.tries == 0 || self.left < script.len() || !self.now.has_some(stretch) {
            return Ok(());
        }
        self.tries -= 1;
        self.left -= script.len();
        let (stage, now) = replay(alloc, app, script, self.now.kept.as_slice(), stretch)?;
        if goal.stands(alloc, app, stage)? {
            self.now = now;
        }
        Ok(())
    }

    // Tries each stretch of so many choices, from the last to the first.
    fn round(
        &mut self,
        alloc: Global,
        app: &App,
        script: &[Meaning],
        goal: Goal,
        size: usize,
    ) -> Result<(), NoMemory>
        requires { IsTrue (is_sound app.now) }
    {
        let len = script.len();
        for number in 0..len {
            let end = len.saturating_sub(number.saturating_mul(size));
            if end == 0 {
                return Ok(());
            }
            self.leave_out(alloc, app, script, goal, (end.saturating_sub(size), end))?;
        }
        Ok(())
    }
}

/// The choices of a schedule, in the words of a document, without those that are not needed for the goal to stand. None where it does not
/// stand by all of them.
pub(crate) fn shortened(
    alloc: Global,
    app: &App,
    script: &[Meaning],
    goal: Goal,
) -> Result<Option<Choices>, NoMemory>
    requires { IsTrue (is_sound app.now) }
{
    let kept = vec![in alloc; true; script.len()]?;
    let (stage, now) = replay(alloc, app, script, kept.as_slice(), (0, 0))?;
    if !goal.stands(alloc, app, stage)? {
        return Ok(None);
    }
    let mut shortening = Shortening {
        now,
        tries: MOST_TRIES,
        left: MOST_REPLAYED.saturating_sub(script.len()),
    };
    for round in 1..ROUNDS {
        let size = (script.len() >> round.min(16)).max(1);
        shortening.round(alloc, app, script, goal, size)?;
    }
    Ok(Some(shortening.now.choices))
}
