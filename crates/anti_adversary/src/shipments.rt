use anti_ids::{Name, NoMemory};
use std::alloc::Global;

/// A part of a write that is yet to come to a region.
#[derive(Clone, Copy)]
pub(crate) struct Shipment {
    /// The number of the choice that made the write.
    pub write: usize,
    pub store: u32,
    pub key: Name,
    pub version: u64,
    pub region: u32,
    /// The part, counted from 1, where the write may have several.
    pub part: Option<u32>,
    /// Whether it was there before, and comes once more.
    pub again: bool,
}

/// The shipments that are yet to be tried, in the order of their writes, and those that were put aside.
#[derive(Drop)]
pub(crate) struct Shipments {
    all: Vec<Shipment>,
    next: usize,
    aside: Vec<Option<Shipment>>,
    // before this place nothing is aside any more
    first_aside: usize,
}

impl Shipments {
    pub(crate) fn new(alloc: Global) -> Shipments {
        Shipments {
            all: Vec::new(alloc),
            next: 0,
            aside: Vec::new(alloc),
            first_aside: 0,
        }
    }

    /// One more, behind the others.
    pub(crate) fn add(&mut self, shipment: Shipment) -> Result<(), NoMemory> {
        self.all.push(shipment)?;
        Ok(())
    }

    /// How many are yet to be tried.
    pub(crate) fn len(&self) -> usize {
        self.all.len().saturating_sub(self.next)
    }

    /// The next that is yet to be tried.
    pub(crate) fn take(&mut self) -> Option<Shipment> {
        let shipment = *self.all.get(self.next)?;
        self.next = self.next.saturating_add(1);
        Some(shipment)
    }

    /// Puts one aside.
    pub(crate) fn put_aside(&mut self, shipment: &Shipment) -> Result<(), NoMemory> {
        self.aside.push(Some(*shipment))?;
        Ok(())
    }

    /// The places of those that may be aside.
    pub(crate) fn places_aside(&self) -> (usize, usize) {
        (self.first_aside, self.aside.len())
    }

    /// The one that is aside at a place.
    pub(crate) fn aside(&self, place: usize) -> Option<Shipment> {
        *self.aside.get(place)?
    }

    /// Takes away what is aside at a place.
    pub(crate) fn remove_aside(&mut self, place: usize) {
        if let Some(aside) = self.aside.get_mut(place) {
            *aside = None;
        }
        if place == self.first_aside {
            self.first_aside = place.saturating_add(1);
        }
    }
}
