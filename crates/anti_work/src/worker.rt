ghost use Rattle.std.specs.Prelude.{◌≡◌};

use anti_ids::NoMemory;
use anti_object::Object;
use anti_shared::Pass;
use anti_trace::Processes;
use std::alloc::Global;

// Which first parts of a store's versions a worker has shipped to a region: not that of version `next`, but of each below it, and of those
// above it just the ones `ahead`.
#[derive(Drop)]
pub(crate) struct Route {
    pub(crate) store: u32,
    pub(crate) region: u32,
    pub(crate) next: u64,
    pub(crate) ahead: Vec<u64>,
}

// A process by the object at which it was born, and its index among those that were born there.
#[derive(Clone, Copy)]
pub(crate) struct Awake {
    pub(crate) object: u32,
    pub(crate) at: usize,
}

// A worker on its thread: its number, its passes, one for each object, the processes that it bore, its last stamp as a carrier, and what it
// has shipped. The processes that made a call in its round, or were born in it, are awake: they are asked first in the next one.
#[derive(Drop)]
pub(crate) struct Worker {
    pub(crate) number: u32,
    pub(crate) passes: Vec<Pass<Object>>,
    pub(crate) processes: Processes,
    pub(crate) clock: u64,
    pub(crate) routes: Vec<Route>,
    pub(crate) awake: Vec<Awake>,
    pub(crate) alloc: Global,
}

// Why a worker's rounds end before nothing more can be done: there was no memory, or it met what is not of the application.
#[derive(Drop)]
pub(crate) enum Stop {
    NoMemory,
    Foreign,
}

impl From<NoMemory> for Stop {
    ghost use Rattle.anti_work.specs.declared.worker.Stop.TheVariants as stops;

    ghost from_gives = { λ _ stop. stop ≡ stops.NoMemory };

    fn from(_: NoMemory) -> Stop {
        Stop::NoMemory
    }
}
