//! Wave files: what moved when, as a value change dump, written, read back and printed; and the causes of a run's last
//! move.
#![tactic(auto)]

mod causes;
mod fault;
mod forms;
mod id;
pub mod laws;
mod line;
mod of_run;
mod read;
mod start;
mod unwave;
mod wave;
mod write;

pub use causes::causes_text;
pub use fault::{WaveError, WaveFault};
pub use of_run::run_wave;
pub use read::read_wave;
pub use unwave::{changes_text, unwave_text};
pub use wave::Wave;
pub use write::write_wave;
