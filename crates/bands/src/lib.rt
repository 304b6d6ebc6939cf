// The bands of rows that a sub holds, and the straight runs of cells in which they lie.
#![tactic(auto)]

mod reach;
mod segments;

pub use reach::{Band, Joined, Reach, between, joined_from, reach_of, whole_band, window_band};
pub use segments::band_segments;
