//! The two ends of a channel.
#![tactic(auto)]

mod emit;
pub mod laws;

pub use emit::{emit_end, emit_receive_port};
