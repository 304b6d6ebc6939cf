// What the rules read of a view, and the phase after a sub that was found: the commit.
#![tactic(auto)]

mod commit;
pub mod views;

pub use commit::{queue_commit, stack_commit};
