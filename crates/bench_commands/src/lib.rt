//! The command `bench`: runs of a net against a handed-in device.
#![tactic(auto)]

pub mod bench;
mod peer_places;

pub use peer_places::place_of_peer;
