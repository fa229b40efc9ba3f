//! Runs of a net under a script, one move after the other. Slow and plain: before each move every node is tested.
#![tactic(auto)]

mod run;

pub use run::{History, Run};
