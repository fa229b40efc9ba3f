//! The parts of which a circuit is made, for nets that are made of more than one program's body.

pub use crate::body::{begin_loop, close_loop, statement, statements_counted};
pub use crate::choice::{choice, join_answers, own_nodes};
pub use crate::circuit::{MOST_NODES, add_reset};
pub use crate::contact::{Contact, Meeting, Site};
pub use crate::declared::declared;
pub use crate::driver::add;
pub use crate::first::declared_values;
pub use crate::firsts::{Firsts, firsts_of};
pub use crate::formula::{begin_element, close_element};
pub use crate::names::names_of;
pub use crate::net::net_of;
pub use crate::sorted::{add_item, no_lists};
pub use crate::tree::tree;
pub use crate::wires::wires_of;
