//! How long a round of a program takes its circuit, as a tree of cells.
#![tactic(auto)]
