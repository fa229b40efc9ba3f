//! Selection and guarded repetition.
#![tactic(auto)]

mod emit;
mod guards;
pub mod laws;

pub use emit::{AgainPorts, SelectPorts, emit_again, emit_select};
