use crate::ranking::Ranking;
use crate::shipments::Shipment;
use anti_ids::Name;

/// Which writes, of those that are drawn, are kept back.
#[derive(Clone, Copy)]
pub(crate) struct Sieve {
    /// What the draws begin with.
    pub salt: u64,
    /// How many of eight are kept back.
    pub eighths: u64,
    /// Whether each write is drawn for itself, or all of a store at a region together.
    pub each: bool,
}

/// What is kept back, until nothing else can be made.
#[derive(Clone, Copy)]
pub(crate) enum Held {
    Nothing,
    /// What is written to a key of a store, at a region.
    Key {
        store: u32,
        key: Name,
        region: u32,
    },
    /// What is written to a store, at a region.
    Replica {
        store: u32,
        region: u32,
    },
    /// A write, at a region.
    Write {
        store: u32,
        version: u64,
        region: u32,
    },
    /// What is drawn.
    Drawn(Sieve),
}

/// How a run is made. Everything that can be shipped is shipped before each other call, but for what is held; that is shipped, one after
/// another, when nothing else can be made. One process goes as far as it can, and then the services take what waits for them.
#[derive(Clone, Copy)]
pub(crate) struct Schedule {
    /// Which service takes first.
    pub ranking: Ranking,
    /// What is kept back.
    pub held: Held,
    /// Nothing is shipped before all else is made.
    pub ships_last: bool,
    /// The newest message is taken first.
    pub newest: bool,
    /// A service takes a message before it pulls one.
    pub takes_first: bool,
}

impl Schedule {
    /// What schedules have that hold nothing in particular.
    pub(crate) fn plain(ranking: Ranking) -> Schedule {
        Schedule {
            ranking,
            held: Held::Nothing,
            ships_last: false,
            newest: false,
            takes_first: false,
        }
    }
}

// Spreads the bits of a number: the last step of splitmix64 (Steele, Lea and Flood, 2014).
fn spread(number: u64) -> u64 {
    let first = (number ^ (number >> 30)).wrapping_mul(0xbf58_476d_1ce4_e5b9);
    let second = (first ^ (first >> 27)).wrapping_mul(0x94d0_49bb_1331_11eb);
    second ^ (second >> 31)
}

impl Sieve {
    // Whether it keeps a shipment back.
    fn holds(self, shipment: &Shipment) -> bool {
        let route = u64::from(shipment.store)
            .wrapping_mul(8)
            .wrapping_add(u64::from(shipment.region));
        let write = if self.each { shipment.version } else { 0 };
        let drawn = spread(self.salt ^ spread(route.wrapping_add(write.wrapping_mul(1024))));
        drawn % 8 < self.eighths
    }
}

impl Held {
    /// Whether a shipment is kept back.
    pub(crate) fn holds(&self, shipment: &Shipment) -> bool {
        match self {
            Held::Nothing => false,
            Held::Key { store, key, region } => {
                shipment.store == *store && shipment.region == *region && shipment.key == *key
            }
            Held::Replica { store, region } => {
                shipment.store == *store && shipment.region == *region
            }
            Held::Write {
                store,
                version,
                region,
            } => {
                shipment.store == *store
                    && shipment.region == *region
                    && shipment.version == *version
            }
            Held::Drawn(sieve) => sieve.holds(shipment),
        }
    }
}
