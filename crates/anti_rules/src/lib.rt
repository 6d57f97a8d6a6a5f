//! The rules of documents: what stands in the tables of a document, and the first rule that fails with its place.
#![tactic(auto)]

mod bodies;
mod body;
mod breach;
mod form_lines;
mod place;
mod rule;
mod rule_lines;
mod statement;
mod store_facts;
mod table;
mod table_keys;
mod toml_tree;
mod walk;

pub use bodies::Bodies;
pub use breach::{Breach, first_breach};
pub use place::{Part, Place};
pub use toml_tree::{member, member_in, text_at, text_of, things_at, things_in};
