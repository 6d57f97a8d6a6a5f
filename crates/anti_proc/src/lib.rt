//! What a handler does: the next call of a process, from the entry that started it and the replies to its calls.
#![tactic(auto)]

mod additions;
mod changes;
mod cursor;
mod end;
mod foreign;
mod given;
mod laws;
mod messages;
mod next;
mod process;
mod quiet;
mod run;
mod statements;
mod task;
mod variables;
mod way;
mod words;

pub use end::{BodyEnd, End, ProcFault};
pub use laws::{
    barriers_look_in_a_row, calls_are_known, calls_are_made_at_home, calls_hand_on_what_is_carried,
    calls_have_their_objects, carries_lineages, carries_what_came, laws_of_processes,
};
pub use process::{Asked, Process};
pub use run::Advance;
pub use task::{Duty, Role, Task, role_of};
