//! The commands for runs of a net: `simulate`, with an order or by delays, `waves`, and `unwave`.
#![tactic(auto)]

pub mod simulate;
mod timing;
pub mod unwave;
pub mod waves;

pub use timing::time;
