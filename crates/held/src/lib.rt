// What a pool holds: how many items, in which cells, and how many of them a take's distance counts.
#![tactic(auto)]

mod reported;
mod total;

pub use reported::distance;
pub use total::items;
