//! How long a round of a program takes its circuit at most, read off the program.
#![tactic(auto)]
