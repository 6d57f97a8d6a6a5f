ghost use Rattle.std.specs.Prelude.{◌≡◌, IsTrue, IfOk, OnOk};
ghost use Rattle.anti_app.specs.Sound.{is_sound};
ghost use Rattle.anti_trace.specs.Legal.{IsLegalTrace};
ghost use Rattle.anti_adversary.specs.inner.Playing.{IsPlayer, IsWhole};

use crate::meaning::{Meaning, Origin};
use crate::player::Player;
use crate::waiting::Waiting;
use anti_app::{App, Choice, service_at};
use anti_ids::NoMemory;
use anti_kind::{Birth, Brought, Call, Entry, MessageKind, Reply};
use anti_trace::{Mark, Trace};
use std::alloc::Global;

/// What a choice came to.
#[derive(Clone, Copy)]
pub(crate) struct Outcome {
    /// The mark of its entry.
    pub mark: Mark,
    /// The version of the write, where it made one; else 0.
    pub version: u64,
}

/// A run in which choices are made by what they mean.
#[derive(Drop)]
pub(crate) struct Stage {
    pub(crate) player: Player,
    // what the choices came to, by their numbers: none where one was left out
    outcomes: Vec<Option<Outcome>>,
    pub(crate) waiting: Waiting,
}

// The version that an entry wrote.
fn version_of(entry: &Entry) -> u64 {
    match &entry.reply {
        Reply::Written { version, .. } => *version,
        _ => 0,
    }
}

// Whether an entry posts a message that is to be taken.
fn is_delivery(entry: &Entry) -> bool {
    match &entry.call {
        Call::Post { message } => match message.get().kind {
            MessageKind::Call | MessageKind::Send => true,
            MessageKind::Request | MessageKind::Reply => false,
        },
        _ => false,
    }
}

// The number of the call that an entry posts; else 0.
fn call_of(entry: &Entry) -> u32 {
    match (&entry.call, &entry.reply) {
        (Call::Post { message }, Reply::Posted(number)) => match message.get().kind {
            MessageKind::Call => *number,
            MessageKind::Send | MessageKind::Request | MessageKind::Reply => 0,
        },
        _ => 0,
    }
}

impl Stage {
    /// Nothing has happened yet.
    pub(crate) fn new(alloc: Global, app: &App) -> Result<Stage, NoMemory>
        requires { IsTrue (is_sound app.now) }
        ensures { IfOk result (λ stage. IsPlayer app.now stage.player) }
    {
        Ok(Stage {
            player: Player::new(alloc, app)?,
            outcomes: Vec::new(alloc),
            waiting: Waiting::new(alloc, app)?,
        })
    }

    /// What the choice of a number came to.
    pub(crate) fn outcome(&self, number: usize) -> Option<Outcome> {
        *self.outcomes.get(number)?
    }

    // A choice in the words that it has now. None where another is missing that it rests on.
    fn choice(&self, meaning: Meaning) -> Option<Choice> {
        match meaning {
            Meaning::Takes { service, origin } => Some(Choice::Take {
                service,
                nth: self.waiting.nth(service, origin)?,
            }),
            Meaning::Pulls { sub } => Some(Choice::Pull { sub }),
            Meaning::Ships {
                write,
                region,
                part,
            } => {
                let Outcome { mark, version } = self.outcome(write)?;
                Some(Choice::Ship {
                    store: mark.object,
                    region,
                    version,
                    part,
                })
            }
            Meaning::ComesAgain { write, region } => {
                let Outcome { mark, version } = self.outcome(write)?;
                Some(Choice::Again {
                    store: mark.object,
                    region,
                    version,
                    part: None,
                })
            }
            Meaning::Goes { birth } => {
                let Outcome { mark, .. } = self.outcome(birth)?;
                Some(Choice::Go {
                    object: mark.object,
                    place: mark.place,
                })
            }
        }
    }

    // Notes what became of messages by the choice of a number.
    fn note(
        &mut self,
        app: &App,
        meaning: Meaning,
        number: usize,
        mark: Mark,
    ) -> Result<u64, NoMemory>
        ensures { OnOk result (self.new.player ≡ self.old.player) }
    {
        if let Meaning::Takes { service, origin } = meaning {
            self.waiting.remove(service, origin);
        }
        let Some(entry) = self.last_at(mark.object) else {
            return Ok(0);
        };
        if is_delivery(entry) {
            let service = service_at(app, mark.object) as u32;
            self.waiting.add(service, Origin::Posted(number))?;
            return Ok(0);
        }
        Ok(version_of(entry))
    }

    /// Makes a choice. One that makes no entry is left out, and leaves the run as it was.
    pub(crate) fn play(
        &mut self,
        app: &App,
        meaning: Meaning,
    ) -> Result<Option<(Choice, Outcome)>, NoMemory>
        requires sound { IsTrue (is_sound app.now) }
        requires player { IsPlayer app.now self.old.player }
        ensures { OnOk result (IsPlayer app.now self.new.player) }
    {
        let Some(choice) = self.choice(meaning) else {
            return Ok(None);
        };
        let Some(mark) = self.player.make(app, choice)? else {
            return Ok(None);
        };
        let number = self.outcomes.len();
        let version = self.note(app, meaning, number, mark)?;
        let outcome = Outcome { mark, version };
        self.outcomes.push(Some(outcome))?;
        Ok(Some((choice, outcome)))
    }

    /// Leaves a choice out.
    pub(crate) fn pass(&mut self) -> Result<(), NoMemory>
        ensures { OnOk result (self.new.player ≡ self.old.player) }
    {
        self.outcomes.push(None)?;
        Ok(())
    }

    /// What was done last at an object.
    pub(crate) fn last_at(&self, object: u32) -> Option<&Entry> {
        self.player.history(object).last()
    }

    /// What the last entry at an object brings to those who wait there.
    pub(crate) fn brought_at(&self, object: u32) -> Brought {
        match self.last_at(object) {
            Some(entry) => entry.call.brought(),
            None => Brought::Nothing,
        }
    }

    /// The number of the call that the last entry at an object posts; else 0.
    pub(crate) fn call_at(&self, object: u32) -> u32 {
        match self.last_at(object) {
            Some(entry) => call_of(entry),
            None => 0,
        }
    }

    /// The object at which a process asks for its next call: none where it has ended.
    pub(crate) fn asks_at(&self, app: &App, birth: Birth) -> Option<u32>
        requires sound { IsTrue (is_sound app.now) }
        requires player { IsPlayer app.now self.now.player }
    {
        self.player.asks_at(app, birth)
    }

    /// How many entries an object has.
    pub(crate) fn entries_at(&self, object: u32) -> usize {
        self.player.history(object).len()
    }

    /// The trace of what was made.
    pub(crate) fn over(self, alloc: Global, app: &App) -> Result<Trace, NoMemory>
        requires sound { IsTrue (is_sound app.now) }
        requires player { IsPlayer app.now self.player }
        ensures { IfOk result (IsLegalTrace app.now) }
    {
        let Stage {
            player,
            outcomes,
            waiting,
        } = self;
        drop(outcomes);
        drop(waiting);
        let (_, trace) = player.over(alloc, app)?;
        Ok(trace)
    }

    /// Makes all that is left to be made, and tells the trace, and what the choices before came to.
    pub(crate) fn finish(
        self,
        alloc: Global,
        app: &App,
    ) -> Result<(Trace, Vec<Option<Outcome>>), NoMemory>
        requires sound { IsTrue (is_sound app.now) }
        requires player { IsPlayer app.now self.player }
        ensures { IfOk result (λ over. IsWhole app.now over.0) }
    {
        let Stage {
            player,
            outcomes,
            waiting,
        } = self;
        drop(waiting);
        let trace = player.finish(alloc, app)?;
        Ok((trace, outcomes))
    }
}
