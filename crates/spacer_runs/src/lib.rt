// Runs by hand with spacers: see specs/Spacers.antt.
#![tactic(auto)]
