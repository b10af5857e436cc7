//! What a card can be to an assertion.
ghost use Rattle.std.specs.Prelude.{◌≡◌};
ghost use Rattle.pencil.specs.Outcomes.{NamesOutcome, outcome_value};

use std::str::FromStr;

/// The four outcomes.
#[derive(Clone, Copy)]
pub enum Outcome {
    /// A vote for the winner and none for the loser, or for the share's winner.
    Win,
    /// A vote for the loser and none for the winner, or for another than the share's winner.
    Loss,
    /// A card that favours neither.
    Blank,
    /// A card that was not found.
    Missing,
}

/// The word names no outcome.
#[derive(Clone, Copy, Debug)]
pub struct NoOutcome;

impl FromStr for Outcome {
    type Err = NoOutcome;

    ghost from_str_gives = { NamesOutcome };

    fn from_str(word: &str) -> Result<Outcome, NoOutcome> {
        match word {
            "win" => Ok(Outcome::Win),
            "loss" => Ok(Outcome::Loss),
            "blank" => Ok(Outcome::Blank),
            "missing" => Ok(Outcome::Missing),
            _ => Err(NoOutcome),
        }
    }
}

/// The value of the outcome to a test with this half and top.
// A conversion that needs the test's numbers too, so no `From`.
pub(crate) fn value_of(outcome: Outcome, half: u16, top: u16) -> u16
    ensures { result ≡ outcome_value outcome half top }
{
    match outcome {
        Outcome::Win => top,
        Outcome::Loss => 0,
        Outcome::Blank => half,
        Outcome::Missing => 0,
    }
}
