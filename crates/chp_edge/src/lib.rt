//! Where bytes come from and where they go.
#![tactic(auto)]

mod count;
mod memory;
mod plan;
mod real;
mod shelf;
mod sink;
mod whole;

pub use memory::{MemShelf, MemSink, SureShelf};
pub use real::{ErrSink, FileShelf, OutSink};
pub use shelf::Shelf;
pub use sink::{Failed, Sink};
pub use whole::{ReadEnd, read_all, write_all};
