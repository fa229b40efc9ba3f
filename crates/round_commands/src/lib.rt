//! The command `run`: rounds of a program, without a circuit.
#![tactic(auto)]

pub mod rounds;
