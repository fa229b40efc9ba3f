//! How the cases of test programs are spelled, the files that they set out, and the page on which they print.
#![tactic(auto)]

mod files;
mod page;
mod words;

pub use files::{CaseFiles, is_spelled};
pub use page::Page;
pub use words::{bytes_of, numbers_of, words_of};
