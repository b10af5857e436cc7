//! Memory for the records of an audit.
use assertion::{Assertion, Planned};
use ballot::ASSERTIONS;
use betting::{ChosenPolicy, Fixed, Record};

/// As many records as there can be assertions, none of them in use.
pub(crate) fn blank_records() -> [Record<Assertion, ChosenPolicy>; ASSERTIONS as usize] {
    let policy = ChosenPolicy::Fixed(Fixed { bet: 0 });
    [Record::start(Planned::BLANK.assertion, policy); ASSERTIONS as usize]
}
