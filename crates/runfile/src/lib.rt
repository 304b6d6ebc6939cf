// A run file: its words, and what each word says at its place.
#![tactic(auto)]

pub mod item;
pub mod reader;
pub mod word;
