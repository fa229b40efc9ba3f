//! Variables, their merges and their write sites.
#![tactic(auto)]

pub mod laws;
mod merge;
mod variable;

pub use merge::emit_or;
pub use variable::{emit_variable, emit_write_site};
