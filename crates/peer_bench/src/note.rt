//! The notes of a device.

/// What passed between a bench and its device: when, as the number of moves that were made by then, and on which
/// channel.
#[derive(Clone, Copy)]
pub enum Note {
    /// The device offered a value on an `in` channel.
    Offered { at: u32, chan: u32, value: u64 },
    /// It was ready to take one value on an `out` channel.
    Ready { at: u32, chan: u32 },
    /// It was notified that it took a value on an `out` channel.
    Took { at: u32, chan: u32, value: u64 },
}
