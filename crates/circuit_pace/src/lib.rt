//! How long the moves of a circuit go on between two steps of its program.
#![tactic(auto)]
