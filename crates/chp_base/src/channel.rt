//! Channels.

use crate::name::Name;

/// Who is at the ends of a channel.
#[derive(Clone, Copy, Debug)]
pub enum Kind {
    /// The environment sends, the program receives.
    In,
    /// The program sends, the environment receives.
    Out,
    /// The program sends and receives.
    Chan,
}

/// A channel of the program.
#[derive(Drop)]
pub struct Channel {
    pub name: Name,
    pub kind: Kind,
    /// The number of bits of each value that passes, from 1 to 64.
    pub width: u8,
}
