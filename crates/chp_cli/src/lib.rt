//! The top call: the words of a command, the files that it reads, and what it writes and says.
#![tactic(auto)]

pub mod laws;
mod main_call;
mod players;

pub use command_answers::Status;
pub use main_call::chp_main;
pub use players::Players;
