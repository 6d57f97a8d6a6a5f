ghost use Rattle.std.specs.Prelude.{◌≡◌};
ghost use Rattle.anti_kind.specs.Kinds.{facts_of, kind_named, kind_of};

use anti_ids::Name;

/// The kinds of store.
#[derive(Clone, Copy, PartialEq, Eq)]
pub enum StoreKind {
    Kv,
    Table,
    Blob,
    Queue,
    Topic,
    Cached,
}

/// What the stores of a kind do.
#[derive(Clone, Copy)]
pub struct Facts {
    /// A write goes to the key that it names, which is read again; else it gets a key of its own.
    pub keyed: bool,
    /// All keys with a prefix are read at once.
    pub scanned: bool,
    /// A key is read that was pulled, or will be.
    pub polled: bool,
    /// What was written is pulled by subscriptions.
    pub pulled: bool,
    /// What was pulled is done or given back, and comes again so many times at most.
    pub tried: bool,
    /// What was written comes to each replica in the order of its versions.
    pub ordered: bool,
    /// A value comes to a replica in parts.
    pub parted: bool,
    /// A read goes through a cache of its replica, which may be behind what came there.
    pub cached: bool,
}

// A kind of which nothing holds.
const NOTHING: Facts = Facts {
    keyed: false,
    scanned: false,
    polled: false,
    pulled: false,
    tried: false,
    ordered: false,
    parted: false,
    cached: false,
};

impl StoreKind {
    /// What its stores do.
    pub fn facts(self) -> Facts
        ensures { result ≡ facts_of self }
    {
        match self {
            StoreKind::Kv => Facts {
                keyed: true,
                ..NOTHING
            },
            StoreKind::Table => Facts {
                keyed: true,
                scanned: true,
                ordered: true,
                ..NOTHING
            },
            StoreKind::Blob => Facts {
                keyed: true,
                parted: true,
                ..NOTHING
            },
            StoreKind::Queue => Facts {
                pulled: true,
                tried: true,
                ..NOTHING
            },
            StoreKind::Topic => Facts {
                polled: true,
                pulled: true,
                ..NOTHING
            },
            StoreKind::Cached => Facts {
                keyed: true,
                cached: true,
                ..NOTHING
            },
        }
    }

    /// The kind that a word of a document names, where it names one.
    pub fn named(word: &str) -> Option<StoreKind>
        ensures { result ≡ kind_named word.now }
    {
        if word == "kv" {
            return Some(StoreKind::Kv);
        }
        if word == "table" {
            return Some(StoreKind::Table);
        }
        if word == "blob" {
            return Some(StoreKind::Blob);
        }
        if word == "queue" {
            return Some(StoreKind::Queue);
        }
        if word == "topic" {
            return Some(StoreKind::Topic);
        }
        if word == "cached" {
            return Some(StoreKind::Cached);
        }
        None
    }

    /// The kind that a word of a document names, or `Kv` where it names none.
    pub fn of_word(word: &str) -> StoreKind
        ensures { result ≡ kind_of word.now }
    {
        match StoreKind::named(word) {
            Some(kind) => kind,
            None => StoreKind::Kv,
        }
    }
}

/// A subscription: the messages of a channel, as they come to a region.
#[derive(Clone, Copy)]
pub struct Sub {
    pub channel: Name,
    pub region: u32,
}
