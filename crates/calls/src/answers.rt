//! What the calls of an audit are shown and answer, and where they leave it.
use crate::counting::HandCount;
use crate::drawing::Audit;
use ballot::Card;
use verdict::{Closing, Verdict};

/// A place, 1 if the card was found there and 0 if it is missing, and the card.
// The found byte stays as it was read, beside the card: a call answers what is neither 0 nor 1 with
// a refusal.
#[derive(Clone, Copy)]
pub struct Reading {
    pub place: u16,
    pub found: u8,
    pub card: Card,
}

impl Reading {
    ghost use Rattle.std.specs.Prelude.{◌≡◌, option_copied};
    ghost use Rattle.calls.specs.Answers.{found_card};
    ghost use Rattle.calls.specs.Calls.{reading_of};

    /// The card, if it was found.
    pub(crate) fn found_card(&self) -> Option<&Card>
        ensures { option_copied result ≡ found_card (reading_of self.now) }
    {
        if self.found == 0 {
            None
        } else {
            Some(&self.card)
        }
    }
}

/// A call before the escalation.
#[derive(Clone, Copy)]
pub enum DrawCall {
    Verdict,
    Entry(Reading),
}

/// A call after the escalation.
#[derive(Clone, Copy)]
pub enum CountCall {
    Close,
    Count(Reading),
}

/// What a call answers that is not refused.
#[derive(Clone, Copy, PartialEq, Eq, Debug)]
pub enum Answer {
    /// The card was entered or counted, or the escalation was granted.
    Taken,
    Finding(Verdict),
    Upheld(Closing),
}

/// Where an audit stands: cards are drawn, or every card is counted.
#[derive(Drop)]
pub enum Standing {
    Drawing(Audit),
    Counting(HandCount),
}
