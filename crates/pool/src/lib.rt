// The pool on lent words: make, begin put, begin take, step, the size call, the dispatcher and the moves between editions, for all words.
#![tactic(auto)]

pub mod export;

pub use calls::{begin_put, begin_take};
pub use dispatcher::dispatch;
pub use moves::move_pool;
pub use setup::{make, set_size};
pub use step::step;
