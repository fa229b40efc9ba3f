//! What is reported of a run, and how a command ends with it.
#![tactic(auto)]

mod reports;

pub use reports::{copied_script, ending_for, reported, uncompared};
