//! One-place buffers on the channels inside of a program.
#![tactic(auto)]

mod buffer;
mod copy;
pub mod laws;
mod names;

pub use buffer::{is_inner_channel, with_buffer};
