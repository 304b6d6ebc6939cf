// A program's buffers: the input is read behind the bytes of a word that the last piece cut, and the output is written and used anew.
#![tactic(auto)]

mod input;
mod output;
mod run;

pub use input::carry;
pub use run::Run;
