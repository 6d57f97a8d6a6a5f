ghost use Rattle.std.specs.Prelude.{◌≡◌, map};
ghost use Rattle.anti_rules.specs.inner.Keys.{key_view};
ghost use Rattle.anti_rules.specs.Keys.{keys_of};

use crate::place::Part;
use anti_ids::{
    GREATEST_SEED, MOST_CHOICES, MOST_HANDLERS, MOST_LINES, MOST_REGIONS, MOST_REPLICAS,
    MOST_REQUESTS, MOST_ROOM, MOST_SERVICES, MOST_STORES, MOST_SUBS, MOST_TRIES, MOST_WORKERS,
};

/// What stands at a key of a table.
#[derive(Clone, Copy)]
pub enum KeyKind {
    /// A text.
    Text,
    /// An integer from the least to the most.
    Number { least: i64, most: i64 },
    /// An array of texts, of which there are at least and at most so many.
    Texts { least: usize, most: usize },
    /// An array of what has places of its own, of which there are at least and at most so many.
    Things { least: usize, most: usize },
}

/// A key of a table.
#[derive(Clone, Copy)]
pub struct TableKey {
    /// Its name.
    pub name: &'static str,
    /// What stands there.
    pub kind: KeyKind,
    /// Whether it has no default.
    pub is_needed: bool,
}

// A key, `needed` or `optional`, with its name and what stands there.
macro_rules! key {
    (needed $name:literal $kind:expr) => {
        TableKey {
            name: $name,
            kind: $kind,
            is_needed: true,
        }
    };
    (optional $name:literal $kind:expr) => {
        TableKey {
            name: $name,
            kind: $kind,
            is_needed: false,
        }
    };
}

// An array of at least and at most so many things.
macro_rules! things {
    ($least:literal to $most:expr) => {
        KeyKind::Things {
            least: $least,
            most: $most,
        }
    };
}

// An integer from the least to the most.
macro_rules! number {
    ($least:literal to $most:expr) => {
        KeyKind::Number {
            least: $least,
            most: $most as i64,
        }
    };
}

static TOP: [TableKey; 8] = [
    key!(needed "regions" things!(1 to MOST_REGIONS)),
    key!(optional "seed" number!(0 to GREATEST_SEED)),
    key!(optional "workers" number!(1 to MOST_WORKERS)),
    key!(optional "choices" things!(0 to MOST_CHOICES)),
    key!(optional "store" things!(0 to MOST_STORES)),
    key!(optional "service" things!(0 to MOST_SERVICES)),
    key!(optional "sub" things!(0 to MOST_SUBS)),
    key!(optional "request" things!(0 to MOST_REQUESTS)),
];

static STORE: [TableKey; 5] = [
    key!(needed "name" KeyKind::Text),
    key!(needed "kind" KeyKind::Text),
    key!(needed "replicas" KeyKind::Texts { least: 1, most: MOST_REPLICAS }),
    key!(optional "tries" number!(1 to MOST_TRIES)),
    key!(optional "room" number!(1 to MOST_ROOM)),
];

static SERVICE: [TableKey; 3] = [
    key!(needed "name" KeyKind::Text),
    key!(needed "region" KeyKind::Text),
    key!(optional "handler" things!(0 to MOST_HANDLERS)),
];

static HANDLER: [TableKey; 2] = [
    key!(needed "name" KeyKind::Text),
    key!(needed "body" things!(0 to MOST_LINES)),
];

static SUB: [TableKey; 5] = [
    key!(needed "name" KeyKind::Text),
    key!(needed "store" KeyKind::Text),
    key!(needed "channel" KeyKind::Text),
    key!(needed "service" KeyKind::Text),
    key!(needed "handler" KeyKind::Text),
];

static REQUEST: [TableKey; 3] = [
    key!(needed "service" KeyKind::Text),
    key!(needed "handler" KeyKind::Text),
    key!(optional "value" KeyKind::Text),
];

/// The keys of the tables of a part.
pub fn keys_of(part: Part) -> &'static [TableKey]
    ensures { map key_view result.now ≡ keys_of part }
{
    match part {
        Part::Top => &TOP,
        Part::Region => &[],
        Part::Store => &STORE,
        Part::Service => &SERVICE,
        Part::Handler => &HANDLER,
        Part::Sub => &SUB,
        Part::Request => &REQUEST,
        Part::Choice => &[],
    }
}
