// A worker's words, and the worker that they hold.
#![tactic(auto)]

mod decode;
mod encode;
mod windows;

pub use decode::{seen_by, side_of, worker_of};
pub use encode::{fresh_slot, seen_slot, slot_of};
pub use windows::{level_of, size_of, span_of};
