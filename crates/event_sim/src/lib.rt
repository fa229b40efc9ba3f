//! The simulator: it makes one run of a net under a script, whose moves a scheduler chooses.
#![tactic(auto)]

mod ages;
mod hazards;
mod homes;
mod indexed;
pub mod laws;
mod listing;
mod lowest;
mod moves;
mod newest;
mod node_set;
mod offers;
mod oldest;
mod picker;
mod power;
mod ran;
mod random;
mod sim;
mod stage;
mod standing;

pub use lowest::Lowest;
pub use newest::Newest;
pub use oldest::Oldest;
pub use picker::Picker;
pub use power::power_state;
pub use ran::{End, Ran};
pub use random::Random;
pub use sim::{Sim, choose, early_end, end_from, last_end};
pub use stage::{Concerned, Stage};
