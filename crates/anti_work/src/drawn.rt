ghost use Rattle.std.specs.Prelude.{◌≡◌, ◌<◌, IsTrue, Ok, false, length, true};
ghost use Rattle.anti_app.specs.declared.app.App.{App};
ghost use Rattle.anti_app.specs.Sound.{is_sound};
ghost use Rattle.anti_work.specs.inner.Knowing.{AreOf};
ghost use Rattle.anti_work.specs.inner.Rounds.{Anything, Comes};
ghost use Rattle.anti_work.specs.inner.Tries.{IsWorkerOf};

use crate::asking::upto;
use crate::dealt::{is_dealt, service_count, sub_count};
use crate::draw::Draw;
use crate::goes::either;
use crate::worker::{Awake, Stop, Worker};
use anti_app::{App, inbox_number, object_count, position_on};
use anti_ids::MOST_REGIONS;
use anti_kind::Call;
use anti_object::Object;
use anti_shared::Shared;
use std::sync::Wait;

// The rounds that are drawn: what is refused in them is asked for again in the next plain one, so nothing is promised of it.
impl Worker {
    // Asks for the next call of a process that is awake. It tells whether the call was made.
    fn go_awake<R: Wait>(
        &mut self,
        rt: &R,
        app: &App,
        shared: &[Shared<Object>],
        awake: Awake,
    ) -> Result<bool, Stop>
        requires sound { IsTrue (is_sound app.now) }
        requires of { AreOf shared.now self.old.passes.items }
        requires worker { IsWorkerOf app.now self.old }
        ensures { Comes app.now shared.now self.old self.new Anything result }
    {
        if awake.object >= object_count(app) {
            return Ok(false);
        }
        if awake.at >= self.processes.born_count(awake.object) {
            return Ok(false);
        }
        self.go(rt, app, shared, awake.object, awake.at)
    }

    // Asks for the next call of each process that is awake. It tells whether a call was made.
    fn draw_goes<R: Wait>(
        &mut self,
        rt: &R,
        app: &App,
        shared: &[Shared<Object>],
        awake: &[Awake],
    ) -> Result<bool, Stop>
        requires sound { IsTrue (is_sound app.now) }
        requires of { AreOf shared.now self.old.passes.items }
        requires worker { IsWorkerOf app.now self.old }
        ensures { Comes app.now shared.now self.old self.new Anything result }
    {
        let mut made = false;
        for i in 0..awake.len() {
            match self.go_awake(rt, app, shared, awake[i]) {
                Ok(went) => made = either(made, went),
                Err(stop) => return Err(stop),
            }
        }
        Ok(made)
    }

    // Asks for a further delivery to a service, if this was dealt to the worker, or that a message comes once more, where that is drawn. It
    // tells whether the call was made.
    fn draw_take<R: Wait>(
        &mut self,
        rt: &R,
        app: &App,
        shared: &[Shared<Object>],
        draw: &mut Draw,
        service: u32,
    ) -> Result<bool, Stop>
        requires sound { IsTrue (is_sound app.now) }
        requires of { AreOf shared.now self.old.passes.items }
        requires worker { IsWorkerOf app.now self.old }
        requires service { service < length app.now.services.items }
        ensures { Comes app.now shared.now self.old self.new Anything result }
    {
        let behind = draw.behind();
        if behind == 0 {
            return Ok(false);
        }
        if !is_dealt(app, service, self.number) {
            return Ok(false);
        }
        let inbox = inbox_number(app, service);
        if draw.repeats() {
            return self.carry(rt, shared, inbox, Call::Repost { number: behind });
        }
        self.bear(rt, app, shared, inbox, Call::Take { nth: behind + 1 })
    }

    // Asks for a delivery to a service: what is drawn, or else the first one. It tells whether a call was made.
    fn take_one<R: Wait>(
        &mut self,
        rt: &R,
        app: &App,
        shared: &[Shared<Object>],
        draw: &mut Draw,
        service: u32,
    ) -> Result<bool, Stop>
        requires sound { IsTrue (is_sound app.now) }
        requires of { AreOf shared.now self.old.passes.items }
        requires worker { IsWorkerOf app.now self.old }
        requires service { service < length app.now.services.items }
        ensures { Comes app.now shared.now self.old self.new Anything result }
    {
        match self.draw_take(rt, app, shared, draw, service) {
            Ok(made) => {
                if made {
                    return Ok(true);
                }
                self.try_take(rt, app, shared, service)
            }
            Err(stop) => Err(stop),
        }
    }

    // Asks for a delivery to each service. It tells whether a call was made.
    fn draw_takes<R: Wait>(
        &mut self,
        rt: &R,
        app: &App,
        shared: &[Shared<Object>],
        draw: &mut Draw,
    ) -> Result<bool, Stop>
        requires sound { IsTrue (is_sound app.now) }
        requires of { AreOf shared.now self.old.passes.items }
        requires worker { IsWorkerOf app.now self.old }
        ensures { Comes app.now shared.now self.old self.new Anything result }
    {
        let mut made = false;
        for service in 0..service_count(app) {
            match self.take_one(rt, app, shared, draw, service) {
                Ok(went) => made = either(made, went),
                Err(stop) => return Err(stop),
            }
        }
        Ok(made)
    }

    // Asks for a pull once more of a subscription, if its service was dealt to the worker, where that is drawn. It tells whether the call was
    // made.
    fn draw_pull<R: Wait>(
        &mut self,
        rt: &R,
        app: &App,
        shared: &[Shared<Object>],
        draw: &mut Draw,
        sub: u32,
    ) -> Result<bool, Stop>
        requires sound { IsTrue (is_sound app.now) }
        requires of { AreOf shared.now self.old.passes.items }
        requires worker { IsWorkerOf app.now self.old }
        requires sub { sub < length app.now.subs.items }
        ensures { Comes app.now shared.now self.old self.new Anything result }
    {
        let stated = app.subs.at(sub as usize);
        if !is_dealt(app, stated.service, self.number) {
            return Ok(false);
        }
        if !draw.repeats() {
            return Ok(false);
        }
        let store = stated.store;
        let sub = position_on(app, store, sub);
        let version = u64::from(draw.behind()) + 1;
        self.bear(rt, app, shared, store, Call::Repull { sub, version })
    }

    // Asks for a pull of a subscription: one once more where that is drawn, or else the next one. It tells whether a call was made.
    fn pull_one<R: Wait>(
        &mut self,
        rt: &R,
        app: &App,
        shared: &[Shared<Object>],
        draw: &mut Draw,
        sub: u32,
    ) -> Result<bool, Stop>
        requires sound { IsTrue (is_sound app.now) }
        requires of { AreOf shared.now self.old.passes.items }
        requires worker { IsWorkerOf app.now self.old }
        requires sub { sub < length app.now.subs.items }
        ensures { Comes app.now shared.now self.old self.new Anything result }
    {
        match self.draw_pull(rt, app, shared, draw, sub) {
            Ok(made) => {
                if made {
                    return Ok(true);
                }
                self.try_pull(rt, app, shared, sub)
            }
            Err(stop) => Err(stop),
        }
    }

    // Asks for the pull of each subscription. It tells whether a call was made.
    fn draw_pulls<R: Wait>(
        &mut self,
        rt: &R,
        app: &App,
        shared: &[Shared<Object>],
        draw: &mut Draw,
    ) -> Result<bool, Stop>
        requires sound { IsTrue (is_sound app.now) }
        requires of { AreOf shared.now self.old.passes.items }
        requires worker { IsWorkerOf app.now self.old }
        ensures { Comes app.now shared.now self.old self.new Anything result }
    {
        let mut made = false;
        for sub in 0..sub_count(app) {
            match self.pull_one(rt, app, shared, draw, sub) {
                Ok(went) => made = either(made, went),
                Err(stop) => return Err(stop),
            }
        }
        Ok(made)
    }

    // How many versions, from the first on, are whole where a route leads, as the worker is told without the store's turn. At what is not
    // there none is.
    fn whole_on(&mut self, shared: &[Shared<Object>], at: usize) -> u64
        requires of { AreOf shared.now self.old.passes.items }
        requires at { at < length self.old.routes.items }
        ensures { (app : App) → Comes app shared.now self.old self.new Anything (Ok false) }
    {
        let route = &self.routes[at];
        let store = route.store;
        let region = route.region;
        if store as usize >= shared.len() {
            return 0;
        }
        if region as usize >= MOST_REGIONS {
            return 0;
        }
        upto(shared, &mut self.passes, store, region)
    }

    // Asks for a shipment on a route of a part of a version above those that are whole there, or of what was shipped once more, where that is
    // drawn. It tells whether the call was made.
    fn draw_ship<R: Wait>(
        &mut self,
        rt: &R,
        app: &App,
        shared: &[Shared<Object>],
        draw: &mut Draw,
        at: usize,
        whole: u64,
    ) -> Result<bool, Stop>
        requires sound { IsTrue (is_sound app.now) }
        requires of { AreOf shared.now self.old.passes.items }
        requires worker { IsWorkerOf app.now self.old }
        requires at { at < length self.old.routes.items }
        ensures { Comes app.now shared.now self.old self.new Anything result }
    {
        let behind = u64::from(draw.behind());
        if behind == 0 {
            return Ok(false);
        }
        let route = &self.routes[at];
        let store = route.store;
        let region = route.region;
        let part = draw.behind() + 1;
        if draw.repeats() {
            let again = Call::Again {
                region,
                version: behind,
                part,
            };
            return self.carry(rt, shared, store, again);
        }
        let version = whole.saturating_add(behind);
        let ship = Call::Ship {
            region,
            version,
            part,
        };
        self.carry(rt, shared, store, ship)
    }

    // Asks for a shipment on a route: what is drawn, or else the first part of its next version. What is whole there it asks first, without the
    // turn. It tells whether a call was made.
    fn ship_one<R: Wait>(
        &mut self,
        rt: &R,
        app: &App,
        shared: &[Shared<Object>],
        draw: &mut Draw,
        at: usize,
    ) -> Result<bool, Stop>
        requires sound { IsTrue (is_sound app.now) }
        requires of { AreOf shared.now self.old.passes.items }
        requires worker { IsWorkerOf app.now self.old }
        requires at { at < length self.old.routes.items }
        ensures { Comes app.now shared.now self.old self.new Anything result }
    {
        let whole = self.whole_on(shared, at);
        match self.draw_ship(rt, app, shared, draw, at, whole) {
            Ok(made) => {
                if made {
                    return Ok(true);
                }
                self.try_ship(rt, app, shared, at)
            }
            Err(stop) => Err(stop),
        }
    }

    // Asks for a shipment on each route. It tells whether a call was made.
    fn draw_ships<R: Wait>(
        &mut self,
        rt: &R,
        app: &App,
        shared: &[Shared<Object>],
        draw: &mut Draw,
    ) -> Result<bool, Stop>
        requires sound { IsTrue (is_sound app.now) }
        requires of { AreOf shared.now self.old.passes.items }
        requires worker { IsWorkerOf app.now self.old }
        ensures { Comes app.now shared.now self.old self.new Anything result }
    {
        let mut made = false;
        for at in 0..self.routes.len() {
            match self.ship_one(rt, app, shared, draw, at) {
                Ok(went) => made = either(made, went),
                Err(stop) => return Err(stop),
            }
        }
        Ok(made)
    }

    // Asks for the calls of one kind: the next calls of processes, deliveries, pulls, and else shipments. It tells whether a call was made.
    fn draw_kind<R: Wait>(
        &mut self,
        rt: &R,
        app: &App,
        shared: &[Shared<Object>],
        draw: &mut Draw,
        awake: &[Awake],
        kind: u32,
    ) -> Result<bool, Stop>
        requires sound { IsTrue (is_sound app.now) }
        requires of { AreOf shared.now self.old.passes.items }
        requires worker { IsWorkerOf app.now self.old }
        ensures { Comes app.now shared.now self.old self.new Anything result }
    {
        match kind {
            0 => self.draw_goes(rt, app, shared, awake),
            1 => self.draw_takes(rt, app, shared, draw),
            2 => self.draw_pulls(rt, app, shared, draw),
            _ => self.draw_ships(rt, app, shared, draw),
        }
    }

    // A round that is drawn: it asks for the next calls of the processes that are awake, and else for calls that are drawn. It tells whether a
    // call was made.
    pub(crate) fn drawn_round<R: Wait>(
        &mut self,
        rt: &R,
        app: &App,
        shared: &[Shared<Object>],
        draw: &mut Draw,
        awake: &[Awake],
    ) -> Result<bool, Stop>
        requires sound { IsTrue (is_sound app.now) }
        requires of { AreOf shared.now self.old.passes.items }
        requires worker { IsWorkerOf app.now self.old }
        ensures { Comes app.now shared.now self.old self.new Anything result }
    {
        let mut made = false;
        for kind in 0..4 {
            match self.draw_kind(rt, app, shared, draw, awake, kind) {
                Ok(went) => made = either(made, went),
                Err(stop) => return Err(stop),
            }
        }
        Ok(made)
    }
}
