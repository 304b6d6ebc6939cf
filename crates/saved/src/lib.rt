// A file with a saved pool: its words, low byte first, and its move from an edition to another.
#![tactic(auto)]

mod bytes;
mod file;

pub use file::{MOST_BYTES, move_file};
