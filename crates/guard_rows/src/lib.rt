//! Rows of a table in place of guards: what the two guards of a node say for each choice of the values that they read,
//! or for each number of its inputs that are high.
#![tactic(auto)]

mod counts;
mod edges;
mod rows;
mod words;

pub use rows::GuardRows;
