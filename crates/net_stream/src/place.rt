//! The positions of a rule file's lines.

/// The position of a line. After the last line of a kind is a position with no line, from which the next kind follows.
#[derive(Clone, Copy)]
pub(crate) enum Place {
    /// The first line.
    Head,
    /// The line of this node.
    Node(u32),
    /// The line of this channel.
    Channel(usize),
    /// The line of this node's up rule; after the last node the text has ended.
    Up(u32),
    /// The line of this node's down rule.
    Down(u32),
}
