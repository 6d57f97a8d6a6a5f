use crate::meaning::Origin;
use anti_app::App;
use anti_ids::NoMemory;
use std::alloc::Global;

/// The messages that wait in the inbox of each service to be taken, in the order of their deliveries.
#[derive(Drop)]
pub(crate) struct Waiting {
    at: Vec<Vec<Origin>>,
}

impl Waiting {
    /// The requests of an application.
    pub(crate) fn new(alloc: Global, app: &App) -> Result<Waiting, NoMemory> {
        let mut waiting = Waiting {
            at: Vec::new(alloc),
        };
        for _ in 0..app.services.len() {
            waiting.add_service(alloc)?;
        }
        for (number, request) in app.requests.as_slice().iter().enumerate() {
            waiting.add(request.service, Origin::Request(number))?;
        }
        Ok(waiting)
    }

    // One inbox more, in which nothing waits.
    fn add_service(&mut self, alloc: Global) -> Result<(), NoMemory> {
        match self.at.push(Vec::new(alloc)) {
            Ok(()) => Ok(()),
            Err(_) => Err(NoMemory),
        }
    }

    /// One message more, behind the others of a service.
    pub(crate) fn add(&mut self, service: u32, origin: Origin) -> Result<(), NoMemory> {
        if let Some(waiting) = self.at.get_mut(service as usize) {
            waiting.push(origin)?;
        }
        Ok(())
    }

    /// Takes a message out.
    pub(crate) fn remove(&mut self, service: u32, origin: Origin) {
        let Some(place) = self.place(service, origin) else {
            return;
        };
        if let Some(waiting) = self.at.get_mut(service as usize) {
            if place < waiting.len() {
                waiting.remove(place);
            }
        }
    }

    // The messages that wait for a service.
    fn of(&self, service: u32) -> &[Origin] {
        match self.at.get(service as usize) {
            Some(waiting) => waiting.as_slice(),
            None => &[],
        }
    }

    // Where a message stands among those that wait for a service.
    fn place(&self, service: u32, origin: Origin) -> Option<usize> {
        self.of(service).iter().position(|waits| *waits == origin)
    }

    /// Where a message stands among those that wait for a service, counted from 1.
    pub(crate) fn nth(&self, service: u32, origin: Origin) -> Option<u32> {
        let mut nth: u32 = 0;
        for waits in self.of(service) {
            nth = nth.saturating_add(1);
            if *waits == origin {
                return Some(nth);
            }
        }
        None
    }

    /// The message that waits longest, or the one that came last.
    pub(crate) fn one(&self, service: u32, newest: bool) -> Option<Origin> {
        let waiting = self.of(service);
        let one = if newest {
            waiting.last()
        } else {
            waiting.first()
        };
        one.copied()
    }
}
