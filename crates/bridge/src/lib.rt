// A move between an edition whose windows have their own sizes and one without: which pools move, and the words that it leaves behind the cells.
#![tactic(auto)]

mod behind;
mod may;

pub use behind::move_windows;
pub use may::may_move;
