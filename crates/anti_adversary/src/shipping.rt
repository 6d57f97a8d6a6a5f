ghost use Rattle.std.specs.Prelude.{IsTrue, OnOk};
ghost use Rattle.anti_app.specs.Sound.{is_sound};
ghost use Rattle.anti_adversary.specs.inner.Playing.{IsPlayer};

use crate::driver::Driver;
use crate::meaning::Meaning;
use crate::schedule::Schedule;
use crate::shipments::Shipment;
use crate::stores::is_cached;
use anti_app::App;
use anti_ids::NoMemory;

impl Driver {
    // Makes a shipment, and tells whether it could be made. In a store with caches what came may come again, but not before nothing else can
    // be made.
    fn make_shipment(&mut self, app: &App, shipment: Shipment) -> Result<bool, NoMemory>
        requires sound { IsTrue (is_sound app.now) }
        requires player { IsPlayer app.now self.old.stage.player }
        ensures { OnOk result (IsPlayer app.now self.new.stage.player) }
    {
        let Shipment {
            write,
            region,
            part,
            again,
            ..
        } = shipment;
        if again {
            return self.play(app, Meaning::ComesAgain { write, region });
        }
        if !self.play(
            app,
            Meaning::Ships {
                write,
                region,
                part,
            },
        )? {
            return Ok(false);
        }
        if is_cached(app, shipment.store) {
            let once_more = Shipment {
                again: true,
                ..shipment
            };
            self.shipments.put_aside(&once_more)?;
        }
        Ok(true)
    }

    // Makes a shipment that is not held, and tells whether it could be made.
    fn make_unheld(
        &mut self,
        app: &App,
        schedule: &Schedule,
        shipment: &Shipment,
    ) -> Result<bool, NoMemory>
        requires sound { IsTrue (is_sound app.now) }
        requires player { IsPlayer app.now self.old.stage.player }
        ensures { OnOk result (IsPlayer app.now self.new.stage.player) }
    {
        if schedule.held.holds(shipment) {
            return Ok(false);
        }
        self.make_shipment(app, *shipment)
    }

    /// Makes the first shipment that is not held and can be made. What is passed over is put aside.
    pub(crate) fn ship(&mut self, app: &App, schedule: &Schedule) -> Result<bool, NoMemory>
        requires sound { IsTrue (is_sound app.now) }
        requires player { IsPlayer app.now self.old.stage.player }
        ensures { OnOk result (IsPlayer app.now self.new.stage.player) }
    {
        for _ in 0..self.shipments.len() {
            let Some(shipment) = self.shipments.take() else {
                return Ok(false);
            };
            if self.make_unheld(app, schedule, &shipment)? {
                return Ok(true);
            }
            self.shipments.put_aside(&shipment)?;
        }
        Ok(false)
    }

    /// Makes the first shipment of those aside that can be made. What would come again comes only where somebody may wait for it.
    pub(crate) fn release(&mut self, app: &App) -> Result<bool, NoMemory>
        requires sound { IsTrue (is_sound app.now) }
        requires player { IsPlayer app.now self.old.stage.player }
        ensures { OnOk result (IsPlayer app.now self.new.stage.player) }
    {
        let (first, end) = self.shipments.places_aside();
        for place in first..end {
            let Some(shipment) = self.shipments.aside(place) else {
                continue;
            };
            let again = shipment.again;
            if again && !self.live.has_some() {
                continue;
            }
            let made = self.make_shipment(app, shipment)?;
            // what can't come again now never will
            if made || again {
                self.shipments.remove_aside(place);
            }
            if made {
                return Ok(true);
            }
        }
        Ok(false)
    }
}
