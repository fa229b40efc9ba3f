//! How the nodes of a program's circuit are laid out.
#![tactic(auto)]

mod answer;
mod blocks;
mod count;
mod expr;
pub mod laws;
mod name;
mod parts;
mod print;
mod site;
mod tree;

pub use answer::answer_node;
pub use count::{count_nodes, statement_nodes};
pub use expr::{expr_nodes, operator_nodes, reads};
pub use name::node_name;
pub use parts::{Block, Part, PartKind, Parts};
pub use print::print_parts;
pub use tree::expand;
