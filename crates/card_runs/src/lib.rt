// Runs by hand with the workers' cards, and in editions 0 and 1: see specs/Cards.antt.
#![tactic(auto)]
