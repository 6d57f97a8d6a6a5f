ghost use Rattle.std.specs.Prelude.{IsTrue, OnOk};
ghost use Rattle.anti_app.specs.Sound.{is_sound};
ghost use Rattle.anti_adversary.specs.inner.Playing.{IsPlayer};

use crate::driver::Driver;
use crate::live::Live;
use crate::meaning::Meaning;
use crate::schedule::Schedule;
use crate::stores::is_cached;
use anti_agenda::Offer;
use anti_app::{App, is_store};
use anti_ids::NoMemory;
use anti_kind::Awaited;

// What a process waits for at an object, where that is known: at an inbox the reply to its call, and at a store what comes to its region.
fn awaited(app: &App, live: &Live, object: u32) -> Option<Awaited> {
    if is_cached(app, object) {
        return None;
    }
    if is_store(app, object) {
        return Some(Awaited::Version {
            region: live.region,
            version: 0,
        });
    }
    if live.call == 0 {
        return None;
    }
    Some(Awaited::Reply(live.call))
}

impl Driver {
    // A process makes its next call, or waits, or has ended.
    fn go(&mut self, app: &App, offer: Offer) -> Result<bool, NoMemory>
        requires sound { IsTrue (is_sound app.now) }
        requires player { IsPlayer app.now self.old.stage.player }
        ensures { OnOk result (IsPlayer app.now self.new.stage.player) }
    {
        let Some(live) = self.live.get(offer) else {
            return Ok(false);
        };
        let birth = live.started;
        if let Some(mark) = self.make(app, Meaning::Goes { birth })? {
            self.live.goes_on(offer, self.stage.call_at(mark.object));
            return Ok(true);
        }
        let Some(object) = self.stage.asks_at(app, live.birth) else {
            self.live.ends(offer);
            return Ok(false);
        };
        self.live.waits(offer, object, awaited(app, &live, object))?;
        Ok(false)
    }

    /// The first process that can make its next call makes it.
    pub(crate) fn go_on(&mut self, app: &App) -> Result<bool, NoMemory>
        requires sound { IsTrue (is_sound app.now) }
        requires player { IsPlayer app.now self.old.stage.player }
        ensures { OnOk result (IsPlayer app.now self.new.stage.player) }
    {
        // no more processes are there than choices that started them
        for _ in 0..self.script.len() {
            let Some(offer) = self.live.next() else {
                return Ok(false);
            };
            if self.go(app, offer)? {
                return Ok(true);
            }
        }
        Ok(false)
    }

    /// The first service that can starts a process.
    pub(crate) fn start(&mut self, app: &App, schedule: &Schedule) -> Result<bool, NoMemory>
        requires sound { IsTrue (is_sound app.now) }
        requires player { IsPlayer app.now self.old.stage.player }
        ensures { OnOk result (IsPlayer app.now self.new.stage.player) }
    {
        for service in schedule.ranking.services() {
            if schedule.takes_first && self.take(app, *service, schedule.newest)? {
                return Ok(true);
            }
            if self.pull(app, *service)? {
                return Ok(true);
            }
            if self.take(app, *service, schedule.newest)? {
                return Ok(true);
            }
        }
        Ok(false)
    }

    // A service takes a message from its inbox.
    fn take(&mut self, app: &App, service: u32, newest: bool) -> Result<bool, NoMemory>
        requires sound { IsTrue (is_sound app.now) }
        requires player { IsPlayer app.now self.old.stage.player }
        ensures { OnOk result (IsPlayer app.now self.new.stage.player) }
    {
        match self.stage.waiting.one(service, newest) {
            Some(origin) => self.play(app, Meaning::Takes { service, origin }),
            None => Ok(false),
        }
    }

    // A service pulls for the first of its subscriptions that has something.
    fn pull(&mut self, app: &App, service: u32) -> Result<bool, NoMemory>
        requires sound { IsTrue (is_sound app.now) }
        requires player { IsPlayer app.now self.old.stage.player }
        ensures { OnOk result (IsPlayer app.now self.new.stage.player) }
    {
        for (number, sub) in app.subs.as_slice().iter().enumerate() {
            if sub.service == service && self.pull_for(app, number as u32, sub.store)? {
                return Ok(true);
            }
        }
        Ok(false)
    }

    // Pulls for a subscription, unless its store had nothing for it and has no new entry.
    fn pull_for(&mut self, app: &App, sub: u32, store: u32) -> Result<bool, NoMemory>
        requires sound { IsTrue (is_sound app.now) }
        requires player { IsPlayer app.now self.old.stage.player }
        ensures { OnOk result (IsPlayer app.now self.new.stage.player) }
    {
        let entries = self.stage.entries_at(store);
        if self.emptied.get(sub as usize).copied() == Some(entries) {
            return Ok(false);
        }
        if self.play(app, Meaning::Pulls { sub })? {
            return Ok(true);
        }
        if let Some(emptied) = self.emptied.get_mut(sub as usize) {
            *emptied = entries;
        }
        Ok(false)
    }
}
