// How long a queue's workers go without an answer: see specs/Stretch.antt.
#![tactic(auto)]
