//! The words of a command, and what they ask for.
#![tactic(auto)]

mod arguments;
mod bench_words;
mod command;
mod compile_words;
mod grow_words;
pub mod laws;
mod rounds_words;
mod run_words;
mod simulation;
mod waves_words;

pub use bench_words::Benching;
pub use command::{Command, command_in};
pub use compile_words::Compilation;
pub use grow_words::Growth;
pub use rounds_words::Rounds;
pub use simulation::{Simulation, Timing};
pub use waves_words::Waves;
