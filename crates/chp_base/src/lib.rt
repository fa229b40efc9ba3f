//! What every layer speaks of: names, spans, numbers of a width, channels, faults and symbols.
#![tactic(auto)]

mod bits;
mod channel;
mod fault;
mod name;
mod span;
mod symbols;

pub use bits::Bits;
pub use channel::{Channel, Kind};
pub use fault::{Fault, FaultCode, TextError};
pub use name::{Name, name_of, node_name_of};
pub use span::Span;
pub use symbols::{Added, Symbols};
