//! The orders and the devices that are handed in.

use event_sim::Picker;
use peer_bench::Peer;

/// What the caller hands in for a call.
#[derive(Drop)]
pub struct Players {
    /// The orders that choose moves. One is requested by its name; of two with one name the first one counts.
    pub orders: Vec<Box<dyn Picker>>,
    /// The devices against which nets are run. One is requested by its name; of two with one name the first one counts.
    pub peers: Vec<Box<dyn Peer>>,
}
