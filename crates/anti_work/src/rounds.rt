ghost use Rattle.std.specs.Prelude.{◌≡◌, IfOk, IsTrue, false, map, true};
ghost use Rattle.anti_app.specs.Sound.{is_sound};
ghost use Rattle.anti_work.specs.inner.Knowing.{AreOf};
ghost use Rattle.anti_work.specs.inner.Rounds.{Comes, HasRoutes, IsAtWork, IsSameWorker, RefusedIfPlain, ends_of};
ghost use Rattle.anti_work.specs.inner.Starting.{HasWorked};
ghost use Rattle.anti_work.specs.inner.Tries.{IsWorkerOf};
ghost use Rattle.anti_work.specs.inner.Trying.{AllRefused};

use crate::done::Done;
use crate::draw::Draw;
use crate::gate::Gate;
use crate::goes::either;
use crate::worker::{Awake, Stop, Worker};
use anti_app::App;
use anti_ids::NoMemory;
use anti_object::Object;
use anti_shared::Shared;
use std::mem;
use std::sync::Wait;

// How many rounds a worker makes at least, before one in which it made no call can be its last.
const LEAST_ROUNDS: u64 = 4;

// Whether a round is a worker's last, which is plain or drawn, and in which it made a call or made none. Rounds are counted from 1.
fn is_last(round: u64, plain: bool, made: bool) -> bool
    ensures plain { result ≡ true → plain ≡ true }
    ensures made { result ≡ true → made ≡ false }
{
    if made {
        return false;
    }
    if !plain {
        return false;
    }
    round > LEAST_ROUNDS
}

impl Worker {
    // A plain round: it asks for all that a worker tries, once. It tells whether a call was made.
    fn plain_round<R: Wait>(
        &mut self,
        rt: &R,
        app: &App,
        shared: &[Shared<Object>],
    ) -> Result<bool, Stop>
        requires sound { IsTrue (is_sound app.now) }
        requires of { AreOf shared.now self.old.passes.items }
        requires worker { IsWorkerOf app.now self.old }
        requires routes { HasRoutes app.now self.old.number (map ends_of self.old.routes.items) }
        ensures { Comes app.now shared.now self.old self.new
            (AllRefused app.now self.old.number self.new.passes.items) result }
    {
        let went = match self.try_goes(rt, app, shared) {
            Ok(went) => went,
            Err(stop) => return Err(stop),
        };
        let took = match self.try_takes(rt, app, shared) {
            Ok(took) => took,
            Err(stop) => return Err(stop),
        };
        let pulled = match self.try_pulls(rt, app, shared) {
            Ok(pulled) => pulled,
            Err(stop) => return Err(stop),
        };
        match self.try_ships(rt, app, shared) {
            Ok(shipped) => Ok(either(either(either(went, took), pulled), shipped)),
            Err(stop) => Err(stop),
        }
    }

    // The processes that are awake. None is behind it.
    fn take_awake(&mut self) -> Vec<Awake>
        ensures { IsSameWorker self.old self.new }
    {
        let none = Vec::new(self.alloc);
        mem::replace(&mut self.awake, none)
    }

    // A round, which is plain or drawn. It tells whether a call was made.
    fn round<R: Wait>(
        &mut self,
        rt: &R,
        app: &App,
        shared: &[Shared<Object>],
        draw: &mut Draw,
        plain: bool,
    ) -> Result<bool, Stop>
        requires sound { IsTrue (is_sound app.now) }
        requires of { AreOf shared.now self.old.passes.items }
        requires worker { IsWorkerOf app.now self.old }
        requires routes { HasRoutes app.now self.old.number (map ends_of self.old.routes.items) }
        ensures { Comes app.now shared.now self.old self.new
            (RefusedIfPlain plain app.now self.old.number self.new) result }
    {
        let awake = self.take_awake();
        if plain {
            return self.plain_round(rt, app, shared);
        }
        self.drawn_round(rt, app, shared, draw, awake.as_slice())
    }

    // What comes back from it.
    fn into_done(self) -> Done
        ensures { result.passes.items ≡ self.passes.items }
    {
        let Worker { passes, .. } = self;
        Done { passes }
    }

    // Its rounds, until it can do no more or meets what is not of the application. The first is plain, and so is each behind one in which it
    // made no call. The others are drawn.
    pub(crate) fn rounds<R: Wait, G: Gate>(
        mut self,
        rt: &R,
        app: &App,
        shared: &[Shared<Object>],
        gate: &G,
    ) -> Result<Done, NoMemory>
        requires sound { IsTrue (is_sound app.now) }
        requires work { IsAtWork app.now shared.now self.number self }
        ensures { IfOk result (HasWorked app.now shared.now self.number) }
    {
        let mut number: u64 = 1;
        let mut plain = true;
        let mut draw = Draw::new(app.seed, self.number);
        for _ in rt.forever() {
            gate.pass(self.number, number);
            match self.round(rt, app, shared, &mut draw, plain) {
                Ok(made) => {
                    if is_last(number, plain, made) {
                        return Ok(self.into_done());
                    }
                    plain = !made;
                }
                Err(Stop::Foreign) => return Ok(self.into_done()),
                Err(Stop::NoMemory) => return Err(NoMemory),
            }
            number = number.saturating_add(1);
        }
        // `forever` does not end
        unreachable!()
    }
}
