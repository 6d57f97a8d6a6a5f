//! The language of handlers: the words of a line, the statement that they state, and the body that lines state.
#![tactic(auto)]

mod block_faults;
mod blocks;
mod fault;
mod form;
mod laws;
mod laws_of_bodies;
mod line;
mod line_reader;
mod name;
mod parser;
mod printer;
mod split;
mod statement;
mod variable;
mod word;
mod write;

pub use fault::{LangCode, LangFault};
pub use laws::lines_are_spelled;
pub use laws_of_bodies::bodies_are_printed;
pub use line::{Line, read_line};
pub use name::plain_name;
pub use parser::{Lines, parse};
pub use printer::print;
pub use split::words;
pub use statement::{Body, KeyWord, Statement, ValueWord};
