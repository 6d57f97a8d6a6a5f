use anti_ids::MOST_SERVICES;

/// An order of the services: which of them takes first where several can.
#[derive(Clone, Copy)]
pub(crate) struct Ranking {
    at: [u32; MOST_SERVICES],
    len: u32,
}

impl Ranking {
    /// No service.
    pub(crate) fn new() -> Ranking {
        Ranking {
            at: [0; MOST_SERVICES],
            len: 0,
        }
    }

    /// The services in the order of the document.
    pub(crate) fn document(services: usize) -> Ranking {
        let mut ranking = Ranking::new();
        for service in 0..services.min(MOST_SERVICES) {
            ranking.add(service as u32);
        }
        ranking
    }

    /// A service behind the others.
    pub(crate) fn add(&mut self, service: u32) {
        if let Some(at) = self.at.get_mut(self.len as usize) {
            *at = service;
            self.len = self.len.saturating_add(1);
        }
    }

    /// How many services there are.
    pub(crate) fn len(&self) -> u32 {
        self.len
    }

    /// The services, the first first.
    pub(crate) fn services(&self) -> &[u32] {
        match self.at.get(..self.len as usize) {
            Some(services) => services,
            None => &[],
        }
    }

    /// The last first.
    pub(crate) fn reversed(&self) -> Ranking {
        let mut ranking = Ranking::new();
        for service in self.services().iter().rev() {
            ranking.add(*service);
        }
        ranking
    }

    /// Two places change their services.
    pub(crate) fn swap(&mut self, one: u32, other: u32) {
        let one = one as usize;
        let other = other as usize;
        if let Some(services) = self.at.get_mut(..self.len as usize) {
            if one < services.len() && other < services.len() {
                services.swap(one, other);
            }
        }
    }
}
