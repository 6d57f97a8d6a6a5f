ghost use Rattle.std.specs.Prelude.{◌≡◌, ◌<◌, vec_len, true, Some, OnOk, OnErr, IfSome, IsTrue};
ghost use Rattle.anti_trace.specs.Histories.{Entries};
ghost use Rattle.anti_app.specs.Objects.{object_count};
ghost use Rattle.anti_app.specs.declared.app.App.{App};
ghost use Rattle.anti_app.specs.Sound.{is_sound};
ghost use Rattle.anti_kind.specs.declared.asking.Asking.{Asking};
ghost use Rattle.anti_trace.specs.Legal.{bears};
ghost use Rattle.anti_agenda.specs.Agendas.{IsAwake};
ghost use Rattle.anti_play.specs.Complete.{IsComplete};
ghost use Rattle.anti_play.specs.Schedule.{bearing, finished, first_made};
ghost use Rattle.anti_play.specs.inner.Attempts.{AttendsBehind, HasFewer, IsCacheTo, IsRouteTo, MakesEntry, made_by};
ghost use Rattle.anti_play.specs.inner.Attending.{CallWaits, IsAttended, IsRoute, asked_by_offer};
ghost use Rattle.anti_play.specs.inner.Finishing.{WentOn};
ghost use Rattle.anti_play.specs.inner.Standing.{IsSoundWorld, IsWorldOf, WorldStands};

use crate::world::World;
use anti_agenda::{Agenda, Offer};
use anti_app::{App, inbox_number, position_on};
use anti_ids::NoMemory;
use anti_kind::{Awaited, Brought, Call, Machine};

impl World {
    /// Makes all that can still be made: the next call of each process, ascending by object and place of its birth, the first free
    /// delivery of each service, the next pull of each subscription, the shipments of each store, and what comes again to each of its
    /// caches that is behind. The first of these that makes an entry makes it, again and again, until none does. Where there is no memory
    /// some of the entries were made.
    pub fn finish(&mut self, app: &App) -> Result<(), NoMemory>
        requires sound { IsTrue (is_sound app.now) }
        requires world { IsWorldOf app.now self.old }
        ensures finished { (trace : Entries) → WorldStands app.now self.old trace
            → OnOk result (WorldStands app.now self.new (finished app.now trace)) }
        ensures complete { (trace : Entries) → WorldStands app.now self.new trace
            → OnOk result (IsComplete app.now trace) }
        ensures kept { (trace : Entries) → WorldStands app.now self.old trace
            → OnErr result (WentOn app.now trace self.new) }
    {
        let mut agenda = self.agenda(app)?;
        while self.turn(app, &mut agenda)? {}
        Ok(())
    }

    // Makes the first entry that can be made, and tells whether there was one. Who is tried in vain is awake no more.
    fn turn(&mut self, app: &App, agenda: &mut Agenda) -> Result<bool, NoMemory>
        requires sound { IsTrue (is_sound app.now) }
        requires attended { IsAttended app.now self.old agenda.old }
        ensures chose { MakesEntry app.now self.old agenda.old (first_made app.now) result self.new }
        ensures attends { AttendsBehind app.now self.old agenda.old (first_made app.now) result agenda.new }
    {
        while let Some(offer) = agenda.first() {
            if self.attempt(app, agenda, offer)? {
                return Ok(true);
            }
        }
        Ok(false)
    }

    // Makes the entry of an offer that is awake, and tells whether there was one. If not, it is awake no more.
    fn attempt(&mut self, app: &App, agenda: &mut Agenda, offer: Offer) -> Result<bool, NoMemory>
        requires sound { IsTrue (is_sound app.now) }
        requires attended { IsAttended app.now self.old agenda.old }
        requires awake { IsAwake agenda.old offer }
        ensures chose { MakesEntry app.now self.old agenda.old (made_by app.now offer) result self.new }
        ensures attends { AttendsBehind app.now self.old agenda.old (made_by app.now offer) result agenda.new }
        ensures fewer { HasFewer agenda.old result agenda.new }
    {
        match offer {
            Offer::Go { object, at } => self.attempt_go(app, agenda, offer, object, at),
            Offer::Take { service } => self.attempt_birth(
                app,
                agenda,
                offer,
                inbox_number(app, service),
                Call::Take { nth: 1 },
            ),
            Offer::Pull { sub } => {
                let store = app.subs.at(sub as usize).store;
                let sub = position_on(app, store, sub);
                self.attempt_birth(app, agenda, offer, store, Call::Pull { sub })
            }
            Offer::Ship { store, replica } => {
                let region = *app.stores.at(store as usize).replicas.at(replica);
                self.attempt_ship(agenda, offer, store, region)
            }
            Offer::Again { store, replica } => {
                let region = *app.stores.at(store as usize).replicas.at(replica);
                self.attempt_again(agenda, offer, store, region)
            }
        }
    }

    // The next call of a process.
    fn attempt_go(
        &mut self,
        app: &App,
        agenda: &mut Agenda,
        offer: Offer,
        object: u32,
        at: usize,
    ) -> Result<bool, NoMemory>
        requires sound { IsTrue (is_sound app.now) }
        requires attended { IsAttended app.now self.old agenda.old }
        requires awake { IsAwake agenda.old offer }
        requires is { offer ≡ Offer.Go object at }
        ensures chose { MakesEntry app.now self.old agenda.old (made_by app.now offer) result self.new }
        ensures attends { AttendsBehind app.now self.old agenda.old (made_by app.now offer) result agenda.new }
        ensures fewer { HasFewer agenda.old result agenda.new }
    {
        let process = self.processes.get(object, at);
        let birth = process.birth();
        let Some(asked) = process.next() else {
            agenda.rest(offer);
            return Ok(false);
        };
        let asked_at = asked.object;
        if let Some(awaited) = self.awaits(asked_at, asked.call) {
            return agenda.sleep(offer, asked_at, awaited).and(Ok(false));
        }
        let brought = asked.call.brought();
        if !self.go_on(app, birth, at)? {
            return agenda.idle(offer).and(Ok(false));
        }
        agenda.stir(asked_at, brought).and(Ok(true))
    }

    // A call by which a process is born. The newborn is awake behind it.
    fn attempt_birth(
        &mut self,
        app: &App,
        agenda: &mut Agenda,
        offer: Offer,
        object: u32,
        call: Call,
    ) -> Result<bool, NoMemory>
        requires sound { IsTrue (is_sound app.now) }
        requires attended { IsAttended app.now self.old agenda.old }
        requires awake { IsAwake agenda.old offer }
        requires born { bears call ≡ true }
        requires object { object < object_count app.now }
        requires asks { (trace : Entries) → asked_by_offer app.now trace offer ≡ Some (bearing trace object call) }
        requires route { IsRoute offer → ⊥ }
        ensures chose { MakesEntry app.now self.old agenda.old (made_by app.now offer) result self.new }
        ensures attends { AttendsBehind app.now self.old agenda.old (made_by app.now offer) result agenda.new }
        ensures fewer { HasFewer agenda.old result agenda.new }
    {
        if let Some(awaited) = self.awaits(object, &call) {
            return agenda.sleep(offer, object, awaited).and(Ok(false));
        }
        let at = self.processes.born_count(object);
        let brought = call.brought();
        if !self.bear(app, object, call)? {
            return agenda.idle(offer).and(Ok(false));
        }
        agenda.stir(object, brought)?;
        agenda.wake(Offer::Go { object, at }).and(Ok(true))
    }

    // The next shipment of a store to a region.
    fn attempt_ship(
        &mut self,
        agenda: &mut Agenda,
        offer: Offer,
        store: u32,
        region: u32,
    ) -> Result<bool, NoMemory>
        requires world { IsSoundWorld self.old }
        requires store { store < vec_len self.old.objects }
        requires awake { IsAwake agenda.old offer }
        ensures chose { (app : App) → IsRouteTo app offer store region
            → MakesEntry app self.old agenda.old (made_by app offer) result self.new }
        ensures attends { (app : App) → IsRouteTo app offer store region
            → AttendsBehind app self.old agenda.old (made_by app offer) result agenda.new }
        ensures fewer { HasFewer agenda.old result agenda.new }
    {
        let recorded = &self.objects[store as usize];
        let Some((version, part)) = recorded.machine().next_ship(region) else {
            return agenda.sleep(offer, store, Awaited::Writing).and(Ok(false));
        };
        self.ship(store, region, version, part)?;
        let brought = Brought::Shipped { region, version };
        agenda.stir(store, brought).and(Ok(true))
    }

    // What comes again next from a store to a region, whose cache is behind. Once none is, only a shipment there makes one so.
    fn attempt_again(
        &mut self,
        agenda: &mut Agenda,
        offer: Offer,
        store: u32,
        region: u32,
    ) -> Result<bool, NoMemory>
        requires world { IsSoundWorld self.old }
        requires store { store < vec_len self.old.objects }
        requires awake { IsAwake agenda.old offer }
        ensures chose { (app : App) → IsCacheTo app offer store region
            → MakesEntry app self.old agenda.old (made_by app offer) result self.new }
        ensures attends { (app : App) → IsCacheTo app offer store region
            → AttendsBehind app self.old agenda.old (made_by app offer) result agenda.new }
        ensures fewer { HasFewer agenda.old result agenda.new }
    {
        let recorded = &self.objects[store as usize];
        let Some(version) = recorded.machine().stale(region) else {
            let awaited = Awaited::Version { region, version: 0 };
            return agenda.sleep(offer, store, awaited).and(Ok(false));
        };
        let call = Call::Again {
            region,
            version,
            part: 1,
        };
        if !self.carry(store, call)? {
            return agenda.idle(offer).and(Ok(false));
        }
        agenda.stir(store, Brought::Nothing).and(Ok(true))
    }

    // What a call waits for at its object, where that is known.
    fn awaits(&self, object: u32, call: &Call) -> Option<Awaited>
        ensures { (app : App) (trace : Entries) (asking : Asking) → WorldStands app self.now trace
            → asking.object ≡ object → asking.call ≡ call.now
            → IfSome result (λ awaited. CallWaits app trace object awaited asking) }
    {
        self.objects.get(object as usize)?.machine().awaits(call)
    }
}
