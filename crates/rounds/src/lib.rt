// The dispatcher as a definition, round robin, and what it does of all words: see specs/Dispatch.antt.
#![tactic(auto)]
