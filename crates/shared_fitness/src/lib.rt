// Whether what the workers share is fit: the windows, and the subs.
#![tactic(auto)]

mod fours;
mod shared;
mod subs;
mod windows;

pub use fours::all_in_fours;
pub use shared::shared_fit;
pub use subs::sub_fit;
pub use windows::zeros;
