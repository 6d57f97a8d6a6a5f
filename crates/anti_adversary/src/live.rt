use anti_agenda::{Agenda, Offer};
use anti_app::App;
use anti_ids::NoMemory;
use anti_kind::{Awaited, Birth, Brought};
use std::alloc::Global;

/// A process.
#[derive(Clone, Copy)]
pub(crate) struct Live {
    /// The number of the choice that started it.
    pub started: usize,
    pub birth: Birth,
    /// The region of its service.
    pub region: u32,
    /// The number of the call that it posted by its last entry; else 0.
    pub call: u32,
}

/// The processes, and which of them may go on. The one that stands at a place among those that were born at an object goes by the offer of
/// its next call.
#[derive(Drop)]
pub(crate) struct LiveProcesses {
    // by their objects, in the order of their births
    born: Vec<Vec<Live>>,
    agenda: Agenda,
    // the one that made the last call of a process, while it may go on
    current: Option<Offer>,
    // how many have not ended
    count: usize,
}

impl LiveProcesses {
    pub(crate) fn new(alloc: Global, app: &App) -> Result<LiveProcesses, NoMemory> {
        let mut processes = LiveProcesses {
            born: Vec::new(alloc),
            agenda: Agenda::new(alloc),
            current: None,
            count: 0,
        };
        let objects = app.stores.len().saturating_add(app.services.len());
        for _ in 0..objects {
            processes.add_object(alloc)?;
        }
        Ok(processes)
    }

    // One object more, at which nothing was born.
    fn add_object(&mut self, alloc: Global) -> Result<(), NoMemory> {
        match self.born.push(Vec::new(alloc)) {
            Ok(()) => Ok(()),
            Err(_) => Err(NoMemory),
        }
    }

    /// A process that was born just now. It goes on next.
    pub(crate) fn add(&mut self, live: Live) -> Result<(), NoMemory> {
        let object = live.birth.object;
        let Some(born) = self.born.get_mut(object as usize) else {
            return Ok(());
        };
        let at = born.len();
        born.push(live)?;
        let offer = Offer::Go { object, at };
        self.agenda.wake(offer)?;
        self.current = Some(offer);
        self.count = self.count.saturating_add(1);
        Ok(())
    }

    /// Whether some process has not ended.
    pub(crate) fn has_some(&self) -> bool {
        self.count > 0
    }

    /// The process of an offer.
    pub(crate) fn get(&self, offer: Offer) -> Option<Live> {
        let Offer::Go { object, at } = offer else {
            return None;
        };
        self.born.get(object as usize)?.get(at).copied()
    }

    /// The process that is tried next: the one that went on last, or the first that may go on.
    pub(crate) fn next(&self) -> Option<Offer> {
        match self.current {
            Some(offer) => Some(offer),
            None => self.agenda.first(),
        }
    }

    /// Something was brought to those who wait at an object.
    pub(crate) fn stir(&mut self, object: u32, brought: Brought) -> Result<(), NoMemory> {
        self.agenda.stir(object, brought)
    }

    /// A process went on, and posted the call of a number, or none.
    pub(crate) fn goes_on(&mut self, offer: Offer, call: u32) {
        self.current = Some(offer);
        let Offer::Go { object, at } = offer else {
            return;
        };
        if let Some(born) = self.born.get_mut(object as usize) {
            if let Some(live) = born.get_mut(at) {
                live.call = call;
            }
        }
    }

    /// A process waits at an object. It is not known for what, where nothing is told.
    pub(crate) fn waits(
        &mut self,
        offer: Offer,
        object: u32,
        awaited: Option<Awaited>,
    ) -> Result<(), NoMemory> {
        self.current = None;
        match awaited {
            Some(awaited) => self.agenda.sleep(offer, object, awaited),
            None => self.agenda.idle(offer),
        }
    }

    /// A process has ended.
    pub(crate) fn ends(&mut self, offer: Offer) {
        self.current = None;
        self.count = self.count.saturating_sub(1);
        self.agenda.rest(offer);
    }
}
