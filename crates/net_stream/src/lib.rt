//! The rule file of a program, piece by piece.
#![tactic(auto)]

mod buffer;
mod cursor;
mod guard;
mod line;
mod place;
mod streamer;

pub use streamer::Streamer;
