// A new pool on lent words, and the size of its windows from the next one on: for all words.
#![tactic(auto)]

mod new;
mod size;

pub use new::make;
pub use size::set_size;
