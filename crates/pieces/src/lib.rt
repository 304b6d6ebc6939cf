// A file in pieces: what a program prints of each, as text in lent output.
#![tactic(auto)]

mod stretch;
mod words;

pub use stretch::{Stretch, TURN_BYTES, begin, turns_in};
pub use words::print_words;
