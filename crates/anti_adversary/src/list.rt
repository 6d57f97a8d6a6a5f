ghost use Rattle.std.specs.Prelude.{IsTrue};
ghost use Rattle.anti_app.specs.Sound.{is_sound};

use crate::draw::Draw;
use crate::keys::{first_keys, first_writes};
use crate::order::by_dependency;
use crate::ranking::Ranking;
use crate::schedule::{Held, Schedule};
use crate::stores::regions_of;
use crate::touches::Touches;
use anti_app::App;
use anti_ids::{Name, NoMemory};
use anti_trace::Trace;
use std::alloc::Global;

/// The most schedules that are tried.
pub(crate) const MOST_SCHEDULES: usize = 512;

// The most of them that are not drawn.
const MOST_LISTED: usize = 384;

/// The schedules that are tried of an application, the unkindest first.
#[derive(Drop)]
pub(crate) struct Schedules {
    all: Vec<Schedule>,
    touches: Touches,
    by_dependency: Ranking,
    by_document: Ranking,
}

impl Schedules {
    /// The first two: everything is shipped first, and everything is shipped last.
    pub(crate) fn first(alloc: Global, app: &App) -> Result<Schedules, NoMemory>
        requires { IsTrue (is_sound app.now) }
    {
        let touches = Touches::of(alloc, app)?;
        let by_document = Ranking::document(app.services.len());
        let by_dependency = by_dependency(alloc, &by_document, &touches)?;
        let mut schedules = Schedules {
            all: Vec::new(alloc),
            touches,
            by_dependency,
            by_document,
        };
        let first = Schedule::plain(by_dependency);
        let last = Schedule {
            ships_last: true,
            ..first
        };
        schedules.add(Held::Nothing, first, MOST_LISTED)?;
        schedules.add(Held::Nothing, last, MOST_LISTED)?;
        Ok(schedules)
    }

    /// The schedule of a number, counted from 0.
    pub(crate) fn get(&self, number: usize) -> Option<Schedule> {
        self.all.get(number).copied()
    }

    // One more that holds this, and else is like another, unless there are so many.
    fn add(&mut self, held: Held, like: Schedule, most: usize) -> Result<(), NoMemory> {
        if self.all.len() < most {
            self.all.push(Schedule { held, ..like })?;
        }
        Ok(())
    }

    /// Adds all others, by the writes of the run that the first made: single keys are held, then whole replicas, then single writes; behind
    /// them are drawn ones.
    pub(crate) fn complete(
        &mut self,
        alloc: Global,
        app: &App,
        trace: &Trace,
    ) -> Result<(), NoMemory>
        requires { IsTrue (is_sound app.now) }
    {
        let keys = self.keys(alloc, app, trace)?;
        self.add_in_orders(keys.as_slice())?;
        let replicas = self.replicas(alloc, app)?;
        self.add_in_orders(replicas.as_slice())?;
        self.add_each(keys.as_slice(), self.by_dependency, true)?;
        let writes = self.writes(alloc, app, trace)?;
        self.add_each(writes.as_slice(), self.by_dependency, false)?;
        self.add_drawn(app.seed)
    }

    // Each of these is held, in one order of the services.
    fn add_each(&mut self, helds: &[Held], ranking: Ranking, newest: bool) -> Result<(), NoMemory> {
        for held in helds {
            let like = Schedule {
                newest,
                ..Schedule::plain(ranking)
            };
            self.add(*held, like, MOST_LISTED)?;
        }
        Ok(())
    }

    // Each of these is held, in the order of what depends on what, that of the document, and its reverse, each order once.
    fn add_in_orders(&mut self, helds: &[Held]) -> Result<(), NoMemory> {
        let first = self.by_dependency;
        let second = self.by_document;
        let third = second.reversed();
        self.add_each(helds, first, false)?;
        if second.services() != first.services() {
            self.add_each(helds, second, false)?;
        }
        if third.services() != first.services() && third.services() != second.services() {
            self.add_each(helds, third, false)?;
        }
        Ok(())
    }

    // Drawn ones, until there are as many as are tried.
    fn add_drawn(&mut self, seed: u64) -> Result<(), NoMemory> {
        let mut draw = Draw::new(seed);
        for _ in self.all.len()..MOST_SCHEDULES {
            let schedule = draw.schedule(self.by_dependency, self.by_document);
            self.add(schedule.held, schedule, MOST_SCHEDULES)?;
        }
        Ok(())
    }

    // The keys that are written, at each region in which some service reads them.
    fn keys(&self, alloc: Global, app: &App, trace: &Trace) -> Result<Vec<Held>, NoMemory> {
        let mut helds = Vec::new(alloc);
        for write in first_keys(alloc, trace, MOST_LISTED)? {
            self.add_key(&mut helds, app, write.store, write.key)?;
        }
        Ok(helds)
    }

    fn add_key(
        &self,
        helds: &mut Vec<Held>,
        app: &App,
        store: u32,
        key: Name,
    ) -> Result<(), NoMemory> {
        for region in regions_of(app, store) {
            if self.touches.is_read(app, store, Some(key), *region) {
                helds.push(Held::Key {
                    store,
                    key,
                    region: *region,
                })?;
            }
        }
        Ok(())
    }

    // The replicas of stores, where some service reads them.
    fn replicas(&self, alloc: Global, app: &App) -> Result<Vec<Held>, NoMemory>
        requires { IsTrue (is_sound app.now) }
    {
        let mut helds = Vec::new(alloc);
        for (store, it) in app.stores.as_slice().iter().enumerate() {
            self.add_replicas(&mut helds, app, store as u32, it.replicas.as_slice())?;
        }
        Ok(helds)
    }

    fn add_replicas(
        &self,
        helds: &mut Vec<Held>,
        app: &App,
        store: u32,
        regions: &[u32],
    ) -> Result<(), NoMemory> {
        for region in regions {
            if self.touches.is_read(app, store, None, *region) {
                helds.push(Held::Replica {
                    store,
                    region: *region,
                })?;
            }
        }
        Ok(())
    }

    // The single writes, at each region in which some service reads their keys.
    fn writes(&self, alloc: Global, app: &App, trace: &Trace) -> Result<Vec<Held>, NoMemory> {
        let mut helds = Vec::new(alloc);
        for write in first_writes(alloc, trace, MOST_LISTED)? {
            self.add_write(&mut helds, app, write.store, write.key, write.version)?;
        }
        Ok(helds)
    }

    fn add_write(
        &self,
        helds: &mut Vec<Held>,
        app: &App,
        store: u32,
        key: Name,
        version: u64,
    ) -> Result<(), NoMemory> {
        for region in regions_of(app, store) {
            if self.touches.is_read(app, store, Some(key), *region) {
                helds.push(Held::Write {
                    store,
                    version,
                    region: *region,
                })?;
            }
        }
        Ok(())
    }
}
