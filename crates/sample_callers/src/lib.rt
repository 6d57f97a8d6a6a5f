//! Callers of `anti_kind`, `anti_shim`, `anti_shared`, `anti_live` and `anti_baggage`, as a program outside writes them. Each stands, word for word, in the
//! `CALLING.md` of its library.
#![tactic(auto)]

mod baggage;
mod live;
mod port;
mod shared;
mod shim;

pub use baggage::{HeaderFault, join, relay, with_write};
pub use live::{
    NOTES, POSTS, ServeFault, client_in, finish, post_and_notify, posts_and_notes, put, read_after,
    read_carried, read_here, serve, start,
};
pub use port::{bring_all, bring_from, kv_port};
pub use shim::{post_and_note, pull_and_take_over, read_anyway, read_behind};
