// What a step reads: its worker's words, its sub's, the windows' tops and the sizes that its phase asks for.
#![tactic(auto)]

mod sizes;
mod worker_view;

pub use sizes::{commit_sizes, look_sizes, no_sizes};
pub use worker_view::{view, view_in};
