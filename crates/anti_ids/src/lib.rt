//! The words of Antipode: names, values, lists whose room is part of their value, ids of writes and lineages.
#![tactic(auto)]

mod ascending;
mod block;
mod bytes;
mod copies;
mod decimal;
mod held_ids;
mod id;
mod id_part;
mod id_parts;
mod ids;
mod left;
mod limits;
mod lineage;
mod list;
mod list_add;
mod marks;
mod memory;
mod name;
mod roomy;
mod text;
mod thread_safety;
mod unions;
mod value;
mod walk;

pub use bytes::Bytes;
pub use copies::Copies;
pub use decimal::read_decimal;
pub use id::WriteId;
pub use ids::Ids;
pub use limits::{
    GREATEST_SEED, GREATEST_VERSION, LONGEST_DOCUMENT, LONGEST_LINE, LONGEST_NAME,
    LONGEST_PLAIN_NAME, LONGEST_VALUE, MOST_CHOICES, MOST_COUNTED, MOST_DEPTH, MOST_HANDLERS,
    MOST_IDS, MOST_LINES, MOST_NESTED, MOST_REGIONS, MOST_REPLICAS, MOST_REQUESTS, MOST_ROOM,
    MOST_RUNS, MOST_SERVICES, MOST_STORES, MOST_SUBS, MOST_TRIES, MOST_TURNS, MOST_UNITS,
    MOST_WORKERS, PART_BYTES,
};
pub use lineage::{Lineage, LineageRefused};
pub use list::List;
pub use memory::NoMemory;
pub use name::{Name, NameFault};
pub use roomy::{Roomy, RoomyFull};
pub use value::{Value, ValueFault};
