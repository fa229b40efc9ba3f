//! Places in a program text.

/// The bytes `from..to` of a program text, counted from 0, without the byte at `to`.
#[derive(Clone, Copy, Debug, PartialEq, Eq)]
pub struct Span {
    pub from: u32,
    pub to: u32,
}
