// A run that reaches the exact figure for a stack's take: see specs/Reached.antt.
#![tactic(auto)]
