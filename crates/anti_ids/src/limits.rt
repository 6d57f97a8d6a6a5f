//! The limits of Antipode. Every crate, and every contract, takes its numbers from here.

// ---- Names, values and lineages.

/// The most bytes of a name.
pub const LONGEST_NAME: usize = 32;

/// The most bytes of a plain name.
pub const LONGEST_PLAIN_NAME: usize = 24;

/// The most bytes of a value.
pub const LONGEST_VALUE: usize = 256;

/// The most ids of a lineage.
pub const MOST_IDS: usize = 512;

/// The greatest version of a write.
pub const GREATEST_VERSION: u64 = u64::MAX;

// ---- Objects.

/// The units of an object: what its entries weigh and what is reserved for later ones never passes this.
pub const MOST_UNITS: u32 = 4096;

/// The bytes of one part of a blob's value.
pub const PART_BYTES: usize = 64;

/// The most times that a queue hands a message out.
pub const MOST_TRIES: u32 = 8;

/// The most keys that the cache of a replica holds.
pub const MOST_ROOM: u32 = 64;

/// The depth of the deepest message.
pub const MOST_DEPTH: u32 = 8;

// ---- Documents.

/// The most bytes of a document.
pub const LONGEST_DOCUMENT: u32 = 262_144;

/// The most regions of a document. They are numbered below it.
pub const MOST_REGIONS: usize = 8;

/// The most replicas of a store.
pub const MOST_REPLICAS: usize = 8;

/// The most stores of a document.
pub const MOST_STORES: usize = 16;

/// The most services of a document.
pub const MOST_SERVICES: usize = 16;

/// The most handlers of a service.
pub const MOST_HANDLERS: usize = 16;

/// The most subs of a document.
pub const MOST_SUBS: usize = 32;

/// The most requests of a document, and so of an inbox.
pub const MOST_REQUESTS: usize = 400;

/// The most choices of a document.
pub const MOST_CHOICES: usize = 4096;

/// The greatest number of a choice that counts from 1.
pub const MOST_COUNTED: u32 = 4096;

/// The most workers of a run.
pub const MOST_WORKERS: u32 = 8;

/// The greatest seed of a run: 2^63 - 1.
pub const GREATEST_SEED: u64 = i64::MAX as u64;

// ---- Bodies of handlers.

/// The most lines of a body.
pub const MOST_LINES: usize = 64;

/// The most blocks that stand in one another.
pub const MOST_NESTED: usize = 4;

/// The most turns of one `repeat`.
pub const MOST_TURNS: u32 = 16;

/// The most turns of nested `repeat`s together: the product of their counts.
pub const MOST_RUNS: u32 = 256;

// ---- The outside.

/// The most bytes of a line that tells a fault.
pub const LONGEST_LINE: usize = 160;
