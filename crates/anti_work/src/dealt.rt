ghost use Rattle.std.specs.Prelude.{◌≡◌, ◌<◌, ◌≤◌, IsTrue, false, length, true};
ghost use Rattle.anti_app.specs.Running.{CanRun};
ghost use Rattle.anti_app.specs.Sound.{is_sound};
ghost use Rattle.anti_work.specs.Workers.{worker_at};
ghost use Rattle.anti_work.specs.inner.Knowing.{AreOf};
ghost use Rattle.anti_work.specs.inner.Rounds.{Comes, FirstRefused, PullRefused, TakeRefused};
ghost use Rattle.anti_work.specs.inner.Tries.{IsWorkerOf};

use crate::goes::either;
use crate::worker::{Stop, Worker};
use anti_app::{App, inbox_number, position_on};
use anti_kind::Call;
use anti_object::Object;
use anti_shared::Shared;
use std::sync::Wait;

// Whether the service or the store of a number was dealt to a worker.
pub(crate) fn is_dealt(app: &App, number: u32, worker: u32) -> bool
    requires some { 1 ≤ app.now.workers }
    requires few { app.now.workers ≤ 8 }
    ensures yes { result ≡ true → worker_at app.now number ≡ worker }
    ensures no { result ≡ false → worker_at app.now number ≡ worker → ⊥ }
{
    number % app.workers + 1 == worker
}

// How many services there are.
pub(crate) fn service_count(app: &App) -> u32
    requires { CanRun app.now }
    ensures { result ≡ length app.now.services.items }
{
    app.services.len() as u32
}

// How many subscriptions there are.
pub(crate) fn sub_count(app: &App) -> u32
    requires { length app.now.subs.items ≤ 32 }
    ensures { result ≡ length app.now.subs.items }
{
    app.subs.len() as u32
}

impl Worker {
    // Asks for the first delivery to a service, if this was dealt to the worker. It tells whether the call was made.
    pub(crate) fn try_take<R: Wait>(
        &mut self,
        rt: &R,
        app: &App,
        shared: &[Shared<Object>],
        service: u32,
    ) -> Result<bool, Stop>
        requires sound { IsTrue (is_sound app.now) }
        requires of { AreOf shared.now self.old.passes.items }
        requires worker { IsWorkerOf app.now self.old }
        requires service { service < length app.now.services.items }
        ensures { Comes app.now shared.now self.old self.new
            (TakeRefused app.now self.old.number self.new service) result }
    {
        if !is_dealt(app, service, self.number) {
            return Ok(false);
        }
        let inbox = inbox_number(app, service);
        self.bear(rt, app, shared, inbox, Call::Take { nth: 1 })
    }

    // Asks for the first delivery to each service that was dealt to the worker. It tells whether a call was made.
    pub(crate) fn try_takes<R: Wait>(
        &mut self,
        rt: &R,
        app: &App,
        shared: &[Shared<Object>],
    ) -> Result<bool, Stop>
        requires sound { IsTrue (is_sound app.now) }
        requires of { AreOf shared.now self.old.passes.items }
        requires worker { IsWorkerOf app.now self.old }
        ensures { Comes app.now shared.now self.old self.new
            (FirstRefused (TakeRefused app.now self.old.number self.new) (length app.now.services.items)) result }
    {
        let mut made = false;
        for service in 0..service_count(app) {
            match self.try_take(rt, app, shared, service) {
                Ok(went) => made = either(made, went),
                Err(stop) => return Err(stop),
            }
        }
        Ok(made)
    }

    // Asks for the pull of a subscription, if its service was dealt to the worker. It tells whether the call was made.
    pub(crate) fn try_pull<R: Wait>(
        &mut self,
        rt: &R,
        app: &App,
        shared: &[Shared<Object>],
        sub: u32,
    ) -> Result<bool, Stop>
        requires sound { IsTrue (is_sound app.now) }
        requires of { AreOf shared.now self.old.passes.items }
        requires worker { IsWorkerOf app.now self.old }
        requires sub { sub < length app.now.subs.items }
        ensures { Comes app.now shared.now self.old self.new
            (PullRefused app.now self.old.number self.new sub) result }
    {
        let stated = app.subs.at(sub as usize);
        if !is_dealt(app, stated.service, self.number) {
            return Ok(false);
        }
        let store = stated.store;
        let position = position_on(app, store, sub);
        self.bear(rt, app, shared, store, Call::Pull { sub: position })
    }

    // Asks for the pull of each subscription of a service that was dealt to the worker. It tells whether a call was made.
    pub(crate) fn try_pulls<R: Wait>(
        &mut self,
        rt: &R,
        app: &App,
        shared: &[Shared<Object>],
    ) -> Result<bool, Stop>
        requires sound { IsTrue (is_sound app.now) }
        requires of { AreOf shared.now self.old.passes.items }
        requires worker { IsWorkerOf app.now self.old }
        ensures { Comes app.now shared.now self.old self.new
            (FirstRefused (PullRefused app.now self.old.number self.new) (length app.now.subs.items)) result }
    {
        let mut made = false;
        for sub in 0..sub_count(app) {
            match self.try_pull(rt, app, shared, sub) {
                Ok(went) => made = either(made, went),
                Err(stop) => return Err(stop),
            }
        }
        Ok(made)
    }
}
