//! The completion tree.
#![tactic(auto)]

pub mod laws;
mod tree;

pub use tree::emit_tree;
