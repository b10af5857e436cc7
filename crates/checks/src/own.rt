//! An assorter and a policy that a test brings along.
ghost use Rattle.std.specs.Prelude.{◌==◌, ◌||◌, Bool, cond, slice_index};
ghost use Rattle.std.proofs.Common.{rules};
ghost use Rattle.assorter.specs.Law.{Above};

use assorter::Assorter;
use ballot::Card;
use betting::Policy;

/// Whether most cards are marked, for whomever: 2 for a card with a mark in the first contest,
/// otherwise 0.
#[derive(Clone, Copy)]
pub(crate) struct Turnout;

impl Assorter for Turnout {
    ghost halves = { λ _. 1 };

    ghost tops = { λ _. 2 };

    ghost values = { λ _ card. cond (slice_index card.marks 0 == 0) 0 2 };

    ghost claims = { λ _. Above 1 (λ card. cond (slice_index card.marks 0 == 0) 0 2) };

    ghost bounds = { Prim.search rules };

    ghost capped = { Prim.search rules };

    ghost exact = { λ _ _. (λ h. h, λ h. h) };

    fn half(&self) -> u16 {
        1
    }

    fn top(&self) -> u16 {
        2
    }

    fn value(&self, card: &Card) -> u16 {
        if card.marks[0] == 0 { 0 } else { 2 }
    }
}

/// Bets half of the wealth until a card has the value 0, and nothing after that.
#[derive(Clone, Copy)]
pub(crate) struct Wary {
    pub(crate) lost: bool,
}

impl Policy for Wary {
    ghost State = { Bool };

    ghost state = { λ p. p.lost };

    ghost bets = { λ s. cond s 0 500 };

    ghost told = { λ s value. s || value == 0 };

    ghost modest = { Prim.search rules };

    fn bet(&self) -> u16 {
        if self.lost { 0 } else { 500 }
    }

    fn tell(&mut self, value: u16) {
        self.lost = self.lost || value == 0;
    }
}
