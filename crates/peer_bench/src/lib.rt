//! A bench of devices: a circuit is run against a device that reacts to what it takes.
#![tactic(auto)]

mod ask;
mod bench;
mod channel_set;
mod course;
mod echo;
pub mod laws;
mod note;
mod peer;
mod ramp;
mod setup;

pub use bench::{Bench, Benched};
pub use echo::Echo;
pub use note::Note;
pub use peer::Peer;
pub use ramp::Ramp;
