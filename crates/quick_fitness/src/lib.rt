// Quick looks at the windows and the subs of a pool of which no size was set.
#![tactic(auto)]

mod looks;

pub use looks::{plain_subs, plain_windows};
