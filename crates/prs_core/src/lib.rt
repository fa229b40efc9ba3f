//! Nets of production rules, their states, the moves of their nodes, and the index of readers.
#![tactic(auto)]

mod fan;
pub mod laws;
mod net;
mod rails;
mod rule;
mod rules;
mod shapes;
mod state;
mod wires;

pub use fan::{Fan, fan_of, only_readers};
pub use net::Net;
pub use rails::{all_neutral, rail_value};
pub use rule::{Guard, Literal, Term};
pub use rules::Rules;
pub use shapes::{all_of, high, low};
pub use state::{State, enabled, fire, first_state, holds, pulled_both_ways};
pub use wires::{Rails, Wires};
