//! Programs whose names and widths are checked.
#![tactic(auto)]

mod call_free;
mod causes;
mod declared;
mod evaluate;
mod findings;
mod fitting;
pub mod laws;
mod lead;
mod making;
mod naming;
mod operate;
mod resolving;
mod scope;
mod survey;
mod typed;
mod width;

pub use call_free::is_call_free;
pub use evaluate::value;
pub use operate::operated;
pub use resolving::resolve;
pub use typed::{TArm, TExpr, TLink, TStmt, Typed, Var};
pub use width::width_of;
