//! A turn round a value that threads share. Who has entered has the value alone. Each seat, which a thread carries, knows a front of the
//! list that the value stands for; who comes next finds a list that goes on from it, and adds entries under the seat's own number. Beside
//! the turn stand marks, which only rise: they tell without the turn how far the list has got.
//!
//! What contracts see stands in `specs/Places.antt`. `specs/inner/Rules.antt` has what is true of a turn between any two steps. There are
//! twelve kinds of step: the ten of `plays.rt`, of which `specs/inner/Steps.antt` has what each changes and tells, and the moves of the
//! value out of its slot and back into it. Parking and waking change nothing.
#![tactic(auto)]

mod close;
mod enter;
mod listed;
mod marking;
mod plays;
mod rule;
mod seat;
mod split;
mod tally;
mod turn;
mod view;

pub use listed::Listed;
pub use seat::Seat;
pub use turn::{Held, Turn};
