// No call touches a word beyond the needed ones: see specs/Untouched.antt.
#![tactic(auto)]
