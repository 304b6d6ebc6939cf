// The longer runs by hand. Those that reach the closest figures: see specs/Extremes.antt, specs/Solos.antt and specs/Stretches.antt. Those with sizes: see specs/Sizes.antt.
#![tactic(auto)]
