// Pools that are moved from edition to edition, and what goes on holding of them: see specs/Turnaround.antt.
#![tactic(auto)]
