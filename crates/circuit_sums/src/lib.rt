//! How many moves of a circuit follow a step of its program at most, and so how long rounds take together.
#![tactic(auto)]
