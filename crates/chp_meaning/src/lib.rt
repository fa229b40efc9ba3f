//! The meaning of programs, in steps and in rounds.
#![tactic(auto)]

mod change;
mod config;
mod effect;
mod enabled;
pub mod laws;
mod left;
mod plan;
mod run;
mod settle;

pub use config::{Config, start};
pub use enabled::next_steps;
pub use run::{RunEnd, round, run_rounds};
