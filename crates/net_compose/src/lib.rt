//! The circuits of programs: what drives each node, and the net.
#![tactic(auto)]

mod block;
mod body;
mod choice;
mod circuit;
mod contact;
mod declared;
mod driver;
mod ending;
mod ends;
mod first;
mod firsts;
mod formula;
mod guard;
pub mod laws;
mod leaves;
mod names;
mod net;
pub mod parts;
mod shape;
mod sorted;
mod through;
mod tree;
mod wires;

pub use circuit::{Circuit, circuit_of};
pub use driver::{Driver, Pattern};
pub use ending::Ending;
pub use names::Names;
pub use net::{NetError, translate};
pub use shape::Shape;
