//! The circuit of a process as a tree: where its control is, and what each move of a node does.
#![tactic(auto)]

pub mod laws;
