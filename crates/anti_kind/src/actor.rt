ghost use Rattle.std.specs.Prelude.{◌≡◌};
ghost use Rattle.anti_kind.specs.Entries.{named};

/// The entry that began a process: the number of its object and its place in that object's history, counted from 1.
#[derive(Clone, Copy, PartialEq, Eq)]
pub struct Birth {
    pub object: u32,
    pub place: u32,
}

/// Who makes a call: a carrier, which moves shipments and repeats deliveries, by its number; a process, by the entry that began
/// it; or a process that the call itself begins. No port records an entry by the last: the entry names the process that it began, by
/// its own object and place. Which calls may begin a process is not asked here, since no table looks at who makes a call.
#[derive(Clone, Copy, PartialEq, Eq)]
pub enum Actor {
    Carrier(u32),
    Process(Birth),
    Newborn,
}

impl Actor {
    /// The actor of the entry with this object and place. A process that the entry itself begins is named by them.
    pub fn named(self, birth: Birth) -> Actor
        ensures { result ≡ named self birth.object birth.place }
    {
        match self {
            Actor::Newborn => Actor::Process(birth),
            actor => actor,
        }
    }
}
