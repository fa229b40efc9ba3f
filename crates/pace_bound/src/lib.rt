//! How long a round of a program takes its circuit at most, worked out from the program alone, and how long the rounds
//! of a run do.
#![tactic(auto)]

mod away;
mod behind;
mod context;
mod depth;
mod first;
mod height;
mod longest;
mod low;
mod mark;
mod phase;
mod rounds;
mod site;
mod table;
mod ways;
mod width;
mod within;

pub use longest::{longest_in_halves, longest_of};
pub use rounds::{RunSum, sum_of_rounds};
pub use ways::{Point, Way, longest_way, loops_of};
pub use within::Loop;
