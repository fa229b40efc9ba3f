//! What a command answers: how it ends, and the line that is said then.
#![tactic(auto)]

mod answer;
mod bad_files;
mod say;
mod status;

pub use answer::{End, Ending, Output, Refusal, Stop};
pub use bad_files::{bad_delays, bad_net, bad_script, bad_wave};
pub use say::tell;
pub use status::Status;
