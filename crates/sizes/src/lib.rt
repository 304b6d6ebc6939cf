// What a size call does, and that the size of each window is known: see specs/NextSize.antt.
#![tactic(auto)]
