// Begins and steps: what is asked of a worker, and the one function behind them all.
#![tactic(auto)]

mod asked;
mod begin;
mod entry;

pub use asked::{Asked, Asks};
pub use begin::{begin_put, begin_take};
pub use entry::{call, next_answer};
