//! Procedures that many calls share: what is refused of them, and the program in which each call is a copy.
#![tactic(auto)]

mod bodies;
mod causes;
mod channels;
mod copies;
mod error;
mod firsts;
mod forms;
mod inlining;
mod own_vars;
mod procedures;
mod sites;
mod splits;

pub use error::CallError;
pub use inlining::inline;
