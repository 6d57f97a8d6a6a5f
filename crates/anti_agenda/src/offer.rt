use anti_kind::Awaited;

/// What may be made next. Offers are tried in this order, and those of one kind in the order of their numbers.
#[derive(Clone, Copy, PartialEq, Eq, PartialOrd, Ord)]
pub enum Offer {
    /// The next call of the process that stands at this place, counted from 0, among those that were born at an object.
    Go { object: u32, at: usize },
    /// The first free delivery of the service of this number.
    Take { service: u32 },
    /// The next pull of the subscription of this number.
    Pull { sub: u32 },
    /// The next shipment of a store to the replica that stands at this place, counted from 0, in its list.
    Ship { store: u32, replica: usize },
    /// What comes again next to the replica that stands at this place, counted from 0, in a store's list, so that its cache is not behind.
    Again { store: u32, replica: usize },
}

/// An offer that waits for something at an object. Sleepers are in order by the object, by what is awaited, and by the offer.
#[derive(Clone, Copy, PartialEq, Eq, PartialOrd, Ord)]
pub struct Sleeper {
    /// The number of the object.
    pub object: u32,
    /// What is awaited there.
    pub awaited: Awaited,
    /// Who waits.
    pub offer: Offer,
}
