//! Whole lists of calls on an audit, with every answer.
#![tactic(auto)]

mod conducting;
mod outcome;

pub use conducting::conduct;
pub use outcome::NotConducted;
