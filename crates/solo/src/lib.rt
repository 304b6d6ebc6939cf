// How soon a worker by itself ends: see specs/Solo.antt.
#![tactic(auto)]
