//! Scripts of the environment, the moves that it makes by them, and the phases of channels.
#![tactic(auto)]

mod channel_index;
mod environment;
mod fault;
mod hazard;
pub mod laws;
mod line;
mod number;
mod phases;
mod reader;
mod script;
mod step;
mod words;

pub use environment::{env_enabled, offer_moves};
pub use fault::{ScriptError, ScriptFault};
pub use hazard::Hazard;
pub use number::number_of;
pub use phases::{keeps_phases, phases_keep};
pub use reader::read_script;
pub use script::{Count, Offer, Script};
pub use words::{lines_of, words_of};
