// The lines that programs print, as text.
#![tactic(auto)]

mod line;
mod summary;
mod tail;

pub use line::{Entry, LINE_BYTES, closing_text, entry_text};
pub use summary::{SUMMARY_BYTES, Summary, summary_text};
