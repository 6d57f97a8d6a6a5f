ghost use Rattle.std.specs.Prelude.{◌≡◌, ◌<◌, ◌||◌, IsTrue, length};
ghost use Rattle.anti_app.specs.Objects.{object_count};
ghost use Rattle.anti_app.specs.Sound.{is_sound};
ghost use Rattle.anti_trace.specs.inner.Living.{lists};
ghost use Rattle.anti_work.specs.inner.Knowing.{AreOf};
ghost use Rattle.anti_work.specs.inner.Rounds.{Comes, FirstRefused, GoesRefused};
ghost use Rattle.anti_work.specs.inner.Tries.{IsWorkerOf};

use crate::worker::{Stop, Worker};
use anti_app::{App, object_count};
use anti_object::Object;
use anti_shared::Shared;
use std::sync::Wait;

// Whether one of two tries made a call.
pub(crate) fn either(first: bool, second: bool) -> bool
    ensures { result ≡ (first || second) }
{
    first || second
}

impl Worker {
    // Asks for the next call of each process that was born at an object. It tells whether a call was made.
    fn try_goes_at<R: Wait>(
        &mut self,
        rt: &R,
        app: &App,
        shared: &[Shared<Object>],
        object: u32,
    ) -> Result<bool, Stop>
        requires sound { IsTrue (is_sound app.now) }
        requires of { AreOf shared.now self.old.passes.items }
        requires worker { IsWorkerOf app.now self.old }
        requires object { object < length (lists self.old.processes) }
        ensures { Comes app.now shared.now self.old self.new (GoesRefused app.now self.new object)
            result }
    {
        let mut made = false;
        for at in 0..self.processes.born_count(object) {
            match self.go(rt, app, shared, object, at) {
                Ok(went) => made = either(made, went),
                Err(stop) => return Err(stop),
            }
        }
        Ok(made)
    }

    // Asks for the next call of each process. It tells whether a call was made.
    pub(crate) fn try_goes<R: Wait>(
        &mut self,
        rt: &R,
        app: &App,
        shared: &[Shared<Object>],
    ) -> Result<bool, Stop>
        requires sound { IsTrue (is_sound app.now) }
        requires of { AreOf shared.now self.old.passes.items }
        requires worker { IsWorkerOf app.now self.old }
        ensures { Comes app.now shared.now self.old self.new
            (FirstRefused (GoesRefused app.now self.new) (object_count app.now)) result }
    {
        let mut made = false;
        for object in 0..object_count(app) {
            match self.try_goes_at(rt, app, shared, object) {
                Ok(went) => made = either(made, went),
                Err(stop) => return Err(stop),
            }
        }
        Ok(made)
    }
}
