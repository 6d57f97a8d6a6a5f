ghost use Rattle.std.specs.Prelude.{◌<◌, vec_len, IfOk, OnOk, IsTrue};
ghost use Rattle.anti_trace.specs.Histories.{Entries};
ghost use Rattle.anti_app.specs.Numbers.{IsStore};
ghost use Rattle.anti_app.specs.declared.app.App.{App};
ghost use Rattle.anti_app.specs.Sound.{is_sound};
ghost use Rattle.anti_play.specs.inner.Attending.{Attends, IsAgain, IsCacheOf, IsGo, IsGoAt, IsPull, IsRouteOf, IsShip, IsTake, Wakes, WakesAll};
ghost use Rattle.anti_play.specs.inner.Standing.{IsWorldOf, WorldStands};

use crate::world::World;
use anti_agenda::{Agenda, Offer};
use anti_app::{App, object_count};
use anti_ids::NoMemory;

impl World {
    // All that may be made next is awake, but for processes that have ended.
    pub(crate) fn agenda(&self, app: &App) -> Result<Agenda, NoMemory>
        requires sound { IsTrue (is_sound app.now) }
        requires world { IsWorldOf app.now self.now }
        ensures { (trace : Entries) → WorldStands app.now self.now trace
            → IfOk result (Attends app.now trace) }
    {
        let mut agenda = Agenda::new(self.alloc);
        self.wake_objects(&mut agenda, app)?;
        wake_services(&mut agenda, app)?;
        wake_subs(&mut agenda, app)?;
        wake_stores(&mut agenda, app)?;
        wake_caches(&mut agenda, app)?;
        Ok(agenda)
    }

    // Wakes the processes that have not ended.
    fn wake_objects(&self, agenda: &mut Agenda, app: &App) -> Result<(), NoMemory>
        requires sound { IsTrue (is_sound app.now) }
        requires world { IsWorldOf app.now self.now }
        ensures { (trace : Entries) → WorldStands app.now self.now trace
            → OnOk result (Wakes app.now trace (IsGo app.now trace) agenda.old agenda.new) }
    {
        for object in 0..object_count(app) {
            self.wake_goes(agenda, object)?;
        }
        Ok(())
    }

    // Wakes the processes that were born at an object and have not ended.
    fn wake_goes(&self, agenda: &mut Agenda, object: u32) -> Result<(), NoMemory>
        requires object { object < vec_len self.now.processes.at }
        ensures { (app : App) (trace : Entries) → IsTrue (is_sound app)
            → WorldStands app self.now trace
            → OnOk result (Wakes app trace (IsGoAt trace object) agenda.old agenda.new) }
    {
        for at in 0..self.processes.born_count(object) {
            if self.processes.get(object, at).next().is_some() {
                agenda.wake(Offer::Go { object, at })?;
            }
        }
        Ok(())
    }
}

// Wakes the first free delivery of each service.
fn wake_services(agenda: &mut Agenda, app: &App) -> Result<(), NoMemory>
    requires sound { IsTrue (is_sound app.now) }
    ensures { OnOk result (WakesAll (IsTake app.now) agenda.old agenda.new) }
{
    for service in 0..app.services.len() {
        agenda.wake(Offer::Take {
            service: service as u32,
        })?;
    }
    Ok(())
}

// Wakes the next pull of each subscription.
fn wake_subs(agenda: &mut Agenda, app: &App) -> Result<(), NoMemory>
    requires sound { IsTrue (is_sound app.now) }
    ensures { OnOk result (WakesAll (IsPull app.now) agenda.old agenda.new) }
{
    for sub in 0..app.subs.len() {
        agenda.wake(Offer::Pull { sub: sub as u32 })?;
    }
    Ok(())
}

// Wakes the routes of all stores.
fn wake_stores(agenda: &mut Agenda, app: &App) -> Result<(), NoMemory>
    requires sound { IsTrue (is_sound app.now) }
    ensures { OnOk result (WakesAll (IsShip app.now) agenda.old agenda.new) }
{
    for store in 0..app.stores.len() {
        wake_routes(agenda, app, store as u32)?;
    }
    Ok(())
}

// Wakes the routes of a store.
fn wake_routes(agenda: &mut Agenda, app: &App, store: u32) -> Result<(), NoMemory>
    requires { IsStore app.now store }
    ensures { OnOk result (WakesAll (IsRouteOf app.now store) agenda.old agenda.new) }
{
    for replica in 0..app.stores.at(store as usize).replicas.len() {
        agenda.wake(Offer::Ship { store, replica })?;
    }
    Ok(())
}

// Wakes what comes again to the caches of all stores.
fn wake_caches(agenda: &mut Agenda, app: &App) -> Result<(), NoMemory>
    requires sound { IsTrue (is_sound app.now) }
    ensures { OnOk result (WakesAll (IsAgain app.now) agenda.old agenda.new) }
{
    for store in 0..app.stores.len() {
        wake_agains(agenda, app, store as u32)?;
    }
    Ok(())
}

// Wakes what comes again to the caches of a store. Mostly it has none, and then nobody is woken.
fn wake_agains(agenda: &mut Agenda, app: &App, store: u32) -> Result<(), NoMemory>
    requires { IsStore app.now store }
    ensures { OnOk result (WakesAll (IsCacheOf app.now store) agenda.old agenda.new) }
{
    let stored = app.stores.at(store as usize);
    if !stored.kind.facts().cached {
        return Ok(());
    }
    for replica in 0..stored.replicas.len() {
        agenda.wake(Offer::Again { store, replica })?;
    }
    Ok(())
}
