//! The command `grow`: programs that are made of two numbers, and their summaries.
#![tactic(auto)]

pub mod grow;
mod grow_summary;
pub mod laws;
