// Strides 0 and 1 are one: see specs/Stride.antt.
#![tactic(auto)]
