// A run file replayed on a pool, one word at a time.
#![tactic(auto)]

mod event;
mod word;

pub use event::{Done, Told};
pub use word::{lent_words, next, place_after};
