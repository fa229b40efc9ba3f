//! What can go wrong in a run.

/// Why a move isn't safe.
#[derive(Clone, Copy, Debug)]
pub enum Hazard {
    /// Both guards of the node hold after the move.
    BothWays { node: u32 },
    /// The node had an enabled move before this one, and has none after it.
    Unstable { node: u32 },
    /// The move breaks the phases of the channel.
    Protocol { chan: u32 },
}
