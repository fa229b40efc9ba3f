//! Programs generated from a seed: pipelines whose stages are drawn from it, and the values that they are fed.
#![tactic(auto)]

mod drawn;
mod generated;

pub use drawn::grow_values;
pub use generated::grow_text;
