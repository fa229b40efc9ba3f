//! The steps of which commands are made: from the names of files to their contents, and on from there.
#![tactic(auto)]

mod buffered;
mod delay_files;
mod files;
pub mod laws;
mod order_places;
mod program_files;
mod reference;
mod run_files;

pub use buffered::{buffered_program, buffered_program_in};
pub use delay_files::{delays_if, delays_in};
pub use files::{
    MOST_OF_NET, MOST_OF_TEXT, checked_program, counted, net_of_text, program_of_text, text_of_file,
};
pub use order_places::place_of;
pub use program_files::accepted_program;
pub use reference::reference_in;
pub use run_files::{net_in, net_script_in, script_in};
