// The phases of a step, as pure functions from what a worker reads to what the step does. No word's place is known here.
#![tactic(auto)]

mod check;
pub mod read;
pub mod rule;
pub mod window;
