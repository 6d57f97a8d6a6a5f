ghost use Rattle.std.specs.Prelude.{◌≡◌};

use anti_ids::{List, Name, NoMemory, Value};
use anti_kind::StoreKind;
use anti_lang::Body;
use anti_rules::Place;
use thiserror::Error;

/// Names, in the order of the document.
pub type Names = List<Name>;

/// Numbers of things of the document, counted from 0.
pub type Numbers = List<u32>;

/// A store.
#[derive(Drop)]
pub struct StoreDef {
    /// A plain name, unlike that of any other store or service.
    pub name: Name,
    /// What it does with what is written.
    pub kind: StoreKind,
    /// The regions that have a replica: distinct numbers of regions, at least one and at most `MOST_REPLICAS`, in the order of the document.
    pub replicas: Numbers,
    /// How often a message is given out at most, 1 to `MOST_TRIES`. It counts only where messages come again.
    pub tries: u32,
    /// How many keys the cache of a replica holds, 1 to `MOST_ROOM`. It counts only where reads go through caches.
    pub room: u32,
}

/// The stores, in the order of the document.
pub type Stores = List<StoreDef>;

/// A handler of a service.
#[derive(Drop)]
pub struct HandlerDef {
    /// A plain name, unlike that of any other handler of the service.
    pub name: Name,
    /// The body of at most 64 lines.
    pub body: Body,
}

/// The handlers of a service, in the order of the document.
pub type Handlers = List<HandlerDef>;

/// A service.
#[derive(Drop)]
pub struct ServiceDef {
    /// A plain name, unlike that of any other store or service.
    pub name: Name,
    /// The number of the region in which its processes run.
    pub region: u32,
    /// At most 16 handlers.
    pub handlers: Handlers,
}

/// The services, in the order of the document.
pub type Services = List<ServiceDef>;

/// A request that waits in the inbox of a service from the start.
#[derive(Drop)]
pub struct RequestDef {
    /// The number of the service.
    pub service: u32,
    /// The number of the handler among those of the service.
    pub handler: u32,
    /// What the handler gets.
    pub value: Value,
}

/// The requests, in the order of the document.
pub type Requests = List<RequestDef>;

/// A subscription: which handler the messages of a store's channel start.
#[derive(Drop)]
pub struct SubDef {
    /// A plain name, unlike that of any other subscription.
    pub name: Name,
    /// The number of the store, of a kind that subscriptions pull from.
    pub store: u32,
    /// A plain name.
    pub channel: Name,
    /// The number of the service.
    pub service: u32,
    /// The number of the handler among those of the service.
    pub handler: u32,
}

/// The subscriptions, in the order of the document.
pub type SubDefs = List<SubDef>;

/// What happens next in a run. Each number of a choice that counts from 1 is at most 4,096.
#[derive(Clone, Copy, PartialEq, Eq)]
pub enum Choice {
    /// The delivery of this number, counted from 1 among the free ones of the service's inbox, is taken: a process is born.
    Take {
        service: u32,
        nth: u32,
    },
    /// The message of this number of the service's inbox is delivered once more.
    Repost {
        service: u32,
        number: u32,
    },
    /// The next message of a subscription is pulled: a process is born.
    Pull {
        sub: u32,
    },
    /// The message of this version is pulled once more by a subscription: a process is born.
    Repull {
        sub: u32,
        version: u64,
    },
    /// A carrier moves a part, counted from 1, of a version to a region. The part is the first where none is given.
    Ship {
        store: u32,
        region: u32,
        version: u64,
        part: Option<u32>,
    },
    /// A carrier brings once more what was brought to a region before: a part, counted from 1, of a version. The part is the
    /// first where none is given.
    Again {
        store: u32,
        region: u32,
        version: u64,
        part: Option<u32>,
    },
    /// The process goes on whose birth stands at this place, counted from 1, of the history of an object. Objects are
    /// numbered from 0: first the stores, then the inboxes of the services.
    Go {
        object: u32,
        place: u32,
    },
    /// All that can still happen happens, one after another, until nothing can.
    Finish,
}

/// The choices, in the order of the document.
pub type Choices = List<Choice>;

/// The numbers, counted from 1, of the choices that made no entry.
pub type Waits = List<u32>;

/// An application: what a document states.
pub struct App {
    /// 1 to 8 distinct plain names.
    pub regions: Names,
    /// The stores.
    pub stores: Stores,
    /// The services.
    pub services: Services,
    /// The subscriptions.
    pub subs: SubDefs,
    /// The requests.
    pub requests: Requests,
    /// The choices.
    pub choices: Choices,
    /// What a run with workers draws from.
    pub seed: u64,
    /// How many workers a run has, 1 to `MOST_WORKERS`.
    pub workers: u32,
}

// By hand, so that no caller sees the fields.
impl Drop for App {
    fn drop(self) {
        let App {
            regions,
            stores,
            services,
            subs,
            requests,
            choices,
            seed: _,
            workers: _,
        } = self;
        drop(regions);
        drop(stores);
        drop(services);
        drop(subs);
        drop(requests);
        drop(choices);
    }
}

/// Why bytes state no application.
#[derive(Clone, Copy, Debug, PartialEq, Eq, Error)]
pub enum AppFault {
    /// The bytes are no TOML document.
    #[error("the bytes are no TOML document")]
    NotToml,
    /// This rule of the format, counted from 1, is the first that the document fails, and this the first place at which it does.
    #[error("the document fails rule {rule} at {place}")]
    Bad { rule: u32, place: Place },
    /// The choice of this number, counted from 1, is none.
    #[error("choice {number} is none")]
    BadChoice { number: u32 },
    /// There was no memory. It says nothing of the bytes.
    #[error("no memory")]
    NoMemory,
}

impl From<NoMemory> for AppFault {
    ghost use Rattle.anti_app.specs.declared.app.AppFault.TheVariants as faults;

    ghost from_gives = { λ _ fault. fault ≡ faults.NoMemory };

    fn from(_: NoMemory) -> AppFault {
        AppFault::NoMemory
    }
}
