//! Delays of a net's nodes, and runs that are timed by them.
#![tactic(auto)]

mod bucket;
mod calendar;
mod delays;
mod due;
mod fault;
pub mod laws;
mod line;
mod name_table;
mod noted;
mod queue;
mod reader;
mod step;
mod timed;

pub use delays::Delays;
pub use fault::{DelayError, DelayFault};
pub use noted::{Noted, NotedMove, NotedRan, TimedRan};
pub use reader::read_delays;
pub use timed::Timed;
