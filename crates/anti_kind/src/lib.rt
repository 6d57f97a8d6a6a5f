//! What the objects of an application are asked and what they answer: calls, replies, entries and histories, the tables of the
//! kinds of store and of an inbox as definitions over whole histories, and what a machine that keeps a table promises.
#![tactic(auto)]

mod actor;
mod asking;
mod awaited;
mod call;
mod entry;
mod handle;
mod kind;
mod laws;
mod lone;
mod machine;
mod message;
mod pair;
mod port;
mod recorded;
mod refusal;
mod row;
mod store_kind;

pub use actor::{Actor, Birth};
pub use asking::Asking;
pub use awaited::{Awaited, Brought};
pub use call::{Call, Reply};
pub use entry::{Entry, History};
pub use handle::Handle;
pub use kind::Kind;
pub use laws::{
    asking_stays_ready, calls_name_own, full_stays_full, looks_are_right, need_never_falls,
    next_is_ready, none_is_ready, none_left_goes_on, none_stale_goes_on, own_after,
    rows_have_sources, shows_stay, stale_is_ready, stores_keep_laws, units_add_up, units_suffice,
    versions_grow, waiting_goes_on, waiting_is_not_ready, what_was_found_stays,
};
pub use lone::Lone;
pub use machine::Machine;
pub use message::{Message, MessageKind, Messages};
pub use pair::Pair;
pub use port::{Answer, Port, WaitPort};
pub use recorded::Recorded;
pub use refusal::Refusal;
pub use row::{Row, Rows};
pub use store_kind::{Facts, StoreKind, Sub};
