ghost use Rattle.std.specs.Prelude.{◌≡◌, ◌+◌, ◌<◌, IfOk, IsTrue, OnOk, length, map};
ghost use Rattle.anti_app.specs.Running.{CanRun};
ghost use Rattle.anti_app.specs.Sound.{is_sound};
ghost use Rattle.anti_work.specs.inner.Knowing.{AreOf};
ghost use Rattle.anti_work.specs.inner.Rounds.{AreNewRoutes, Comes, FirstRefused, HasAdded, HasRoute, HasRoutesTo, ShipRefused, ends_of};
ghost use Rattle.anti_work.specs.inner.Tries.{IsWorkerOf};

use crate::dealt::is_dealt;
use crate::goes::either;
use crate::worker::{Route, Stop, Worker};
use anti_app::App;
use anti_ids::NoMemory;
use anti_kind::Call;
use anti_object::Object;
use anti_shared::Shared;
use std::alloc::Global;
use std::sync::Wait;

// Adds a route from a store to a region, on which nothing was shipped.
fn add_route(
    routes: &mut Vec<Route>,
    alloc: Global,
    store: u32,
    region: u32,
) -> Result<(), NoMemory>
    ensures { OnOk result (HasRoute store region routes.old.items routes.new.items) }
{
    routes.reserve(1)?;
    routes.push_reserved(Route {
        store,
        region,
        next: 1,
        ahead: Vec::new(alloc),
    });
    Ok(())
}

// Adds a route from a store to each of these regions.
fn add_routes(
    routes: &mut Vec<Route>,
    alloc: Global,
    store: u32,
    regions: &[u32],
) -> Result<(), NoMemory>
    ensures { OnOk result (HasAdded store regions.now (length regions.now) routes.old.items routes.new.items) }
{
    for at in 0..regions.len() {
        add_route(routes, alloc, store, regions[at])?;
    }
    Ok(())
}

// Adds a route to each replica of a store, if this was dealt to the worker of a number.
fn add_store(
    routes: &mut Vec<Route>,
    alloc: Global,
    app: &App,
    number: u32,
    store: u32,
) -> Result<(), NoMemory>
    requires sound { IsTrue (is_sound app.now) }
    requires store { store < length app.now.stores.items }
    requires before { HasRoutesTo app.now number store routes.old.items }
    ensures { OnOk result (HasRoutesTo app.now number (store + 1) routes.new.items) }
{
    if !is_dealt(app, store, number) {
        return Ok(());
    }
    let stated = app.stores.at(store as usize);
    let regions = stated.replicas.as_slice();
    add_routes(routes, alloc, store, regions)?;
    Ok(())
}

// How many stores there are.
fn store_count(app: &App) -> u32
    requires { CanRun app.now }
    ensures { result ≡ length app.now.stores.items }
{
    app.stores.len() as u32
}

// The routes of the worker of a number: one to each replica of each store that was dealt to it.
pub(crate) fn routes(alloc: Global, app: &App, number: u32) -> Result<Vec<Route>, NoMemory>
    requires { IsTrue (is_sound app.now) }
    ensures { IfOk result (λ routes. AreNewRoutes app.now number routes.items) }
{
    let mut routes = Vec::new(alloc);
    for store in 0..store_count(app) {
        add_store(&mut routes, alloc, app, number, store)?;
    }
    Ok(routes)
}

impl Worker {
    // Asks for the shipment of the first part of a route's next version. It tells whether the call was made.
    pub(crate) fn try_ship<R: Wait>(
        &mut self,
        rt: &R,
        app: &App,
        shared: &[Shared<Object>],
        at: usize,
    ) -> Result<bool, Stop>
        requires sound { IsTrue (is_sound app.now) }
        requires of { AreOf shared.now self.old.passes.items }
        requires worker { IsWorkerOf app.now self.old }
        requires at { at < length self.old.routes.items }
        ensures { Comes app.now shared.now self.old self.new
            (ShipRefused app.now self.old.number (map ends_of self.old.routes.items) self.new at) result }
    {
        let route = &self.routes[at];
        let store = route.store;
        let call = Call::Ship {
            region: route.region,
            version: route.next,
            part: 1,
        };
        self.carry(rt, shared, store, call)
    }

    // Asks for the shipment of the first part of each route's next version. It tells whether a call was made.
    pub(crate) fn try_ships<R: Wait>(
        &mut self,
        rt: &R,
        app: &App,
        shared: &[Shared<Object>],
    ) -> Result<bool, Stop>
        requires sound { IsTrue (is_sound app.now) }
        requires of { AreOf shared.now self.old.passes.items }
        requires worker { IsWorkerOf app.now self.old }
        ensures { Comes app.now shared.now self.old self.new
            (FirstRefused (ShipRefused app.now self.old.number (map ends_of self.old.routes.items) self.new)
            (length self.old.routes.items)) result }
    {
        let mut made = false;
        for at in 0..self.routes.len() {
            match self.try_ship(rt, app, shared, at) {
                Ok(went) => made = either(made, went),
                Err(stop) => return Err(stop),
            }
        }
        Ok(made)
    }
}
