//! The sharing rule: what two parallel branches of a program may not both do.
#![tactic(auto)]

mod clash;
mod deeds;
mod disjoint;
pub mod laws;
mod table;

pub use disjoint::{Disjoint, share};
