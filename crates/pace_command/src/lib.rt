//! The command of the program `chp_pace`: how long rounds of a program take its circuit at most, any ones and those
//! under a script, where the longest way of a round lies, and the longest one within each loop.
#![tactic(auto)]

mod asked;
mod first_names;
pub mod laws;
mod lines;
mod main_call;
mod pace;
mod report;
mod targets;

pub use command_answers::Status;
pub use main_call::pace_main;
