//! The circuits of expressions.
#![tactic(auto)]

mod emit;
mod expression;
mod gate;
pub mod laws;
mod node;
mod operator;
mod rail;

pub use emit::emit_expr;
pub use expression::{expr_drivers, read_drivers};
pub use gate::{Function, gate_neutral, gate_rows};
pub use handshake_expand::expr_nodes;
pub use node::{Bit, NodeGuards, bits_apart, rails_of};
pub use rail::{RailDriver, RailPattern};
