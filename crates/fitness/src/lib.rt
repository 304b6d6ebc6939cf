// Which words are a fit pool: the first unfit word ends the check.
#![tactic(auto)]

mod quick;
mod refusals;

pub use refusals::{check, check_source, fit_settings, quick_check};
