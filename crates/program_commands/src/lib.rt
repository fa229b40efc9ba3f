//! The commands for programs and their rule files: `check`, `expand`, `compile` and `migrate`.
#![tactic(auto)]

pub mod check;
pub mod compile;
pub mod expand;
pub mod laws;
pub mod migrate;
mod reply;

pub use reply::Reply;
