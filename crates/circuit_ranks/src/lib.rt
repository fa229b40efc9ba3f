//! How many moves of a circuit follow a move at most before the next step of its program, for all of its nodes.
#![tactic(auto)]
