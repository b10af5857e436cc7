//! How many of all draw sequences a fair game grows on. The functions only state what is proved.
#![tactic(auto)]

ghost use Rattle.chance.specs.Sequences.{AllSequences, Counted, Names, sequences};
ghost use Rattle.chance.specs.Ville.{Ville};

/// Ville's inequality: a fair game reaches a multiple of its wealth on few of the draw sequences.
pub fn ville_stands()
    ensures { Ville }
{}

/// The draw sequences are listed once each. Of those of two draws out of two places, so many name
/// the first place.
pub fn sequences_naming_first() -> u8
    ensures counted { Counted (Names 1) (sequences 2 2) result }
    ensures listed { AllSequences }
{
    3
}
