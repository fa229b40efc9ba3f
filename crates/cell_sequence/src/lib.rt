//! The circuits of control that are one after the other: the Q-element, skip and the loop.
#![tactic(auto)]

mod emit;
pub mod laws;

pub use emit::{QPorts, emit_loop, emit_q, emit_skip};
