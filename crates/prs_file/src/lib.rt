//! The text of a rule file, versions 1 and 2.
#![tactic(auto)]

mod channel;
mod channels;
mod driven;
mod fault;
mod form;
mod forms;
mod guard;
mod index;
pub mod laws;
mod lookup;
mod nodes;
mod opening;
mod print;
mod read;
mod rule;
mod spelled;
mod table;
mod turns;
mod wiring;
mod word;

pub use fault::{NetFault, NetReadError};
pub use forms::{Lead, channel_line, head_line, literal_text, node_line, rule_end};
pub use print::print_net;
pub use read::read_net;
