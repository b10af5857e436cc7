//! A draws file is followed, command by command, on an audit.
#![tactic(auto)]

mod draws;
mod follow;
mod marks;

pub use draws::{Replayed, replay};
