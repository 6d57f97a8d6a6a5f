//! The order of all writes that explains what reads of a trace showed, or the entry that bars it.
#![tactic(auto)]

mod answer;
mod answer_counts;
mod grounds;
mod laws;
mod marks;
mod number_set;
mod order_listing;
mod orders;
mod past_writes;
mod pieces;
mod writes;

pub use answer::{OrderAnswer, SpanAnswer, SpanAnswers};
pub use answer_counts::{AnswerCounts, count_answers, count_answers_along};
pub use grounds::Grounds;
pub use laws::answered_orders_explain;
pub use marks::mark_at;
pub use number_set::NumberSet;
pub use order_listing::Arranging;
pub use orders::{answers, answers_along, order, order_of, reads_of};
pub use pieces::{MarkPieces, Marks, Piece};
pub use writes::Writes;
