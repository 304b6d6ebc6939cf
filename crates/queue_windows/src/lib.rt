// The words of a queue's windows: what reads them, and what writes those of a window that moves on.
#![tactic(auto)]

mod pairs;
mod windows;

pub use pairs::{put_dropped, put_raised};
pub use windows::{has_windows, live_of, next_size, nth_size, size_set, take_bottom};
