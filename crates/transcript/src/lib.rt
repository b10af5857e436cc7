//! The text of a whole audit: the lines of its answers, and of the fault where it stopped.
#![tactic(auto)]

mod files;
mod lines;
mod memory;

pub use files::transcribe;
pub use lines::transcript;
