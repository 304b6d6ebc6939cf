// One step of a worker on the lent words: what it reads, the rule of its phase, what it writes and answers.
#![tactic(auto)]

pub mod answers;
mod apply;
mod by_phase;
mod work;

pub use work::{fit_answer, step};
