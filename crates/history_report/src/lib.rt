//! What is printed of runs and of rounds, and how a run compares with the rounds of a program.
#![tactic(auto)]

mod comparison;
pub mod laws;
mod report;
mod rounds;

pub use comparison::{Against, against_text, compare};
pub use report::report_text;
pub use rounds::rounds_text;
