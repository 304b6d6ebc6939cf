// The phases after a pass that found no sub: the window is shifted, or the subs are confirmed, one by one.
#![tactic(auto)]

mod confirm;
mod shift;

pub use confirm::{queue_confirm, stack_confirm};
pub use shift::{queue_shift, stack_shift};
