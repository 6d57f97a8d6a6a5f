//! The printed forms of a run.
#![tactic(auto)]

mod call_words;
mod counterexample;
mod doctor_text;
mod entry_lines;
mod id_texts;
mod json_items;
mod json_strings;
mod json_texts;
mod lists;
mod mark_texts;
mod output;
mod overwrite;
mod pieces;
mod placement;
mod plain;
mod printer;
mod process_lines;
mod record_json;
mod record_text;
mod reply_words;
mod review;
mod run_summary;
mod session_text;
mod span_lines;
mod wait_lines;
mod words;
mod written_ids;

pub use counterexample::verdict_text;
pub use doctor_text::DoctorText;
pub use placement::placement_line;
pub use record_json::{RecordJson, json, print_json};
pub use record_text::{RecordText, print, text};
pub use review::review_text;
pub use run_summary::{SummaryText, print_summary, summary};
pub use session_text::SessionText;
