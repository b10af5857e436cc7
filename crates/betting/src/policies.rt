ghost use Rattle.std.specs.Prelude.{◌≡◌, ℕ, min};
ghost use Rattle.betting.specs.Shrinks.{shrinking_from, RunsByTheRule, shrinking_bet, shrinking_told, Shrinks};
ghost use Rattle.betting.specs.Policies.{chosen_bet, chosen_state, chosen_told, Chosen, in_state, shrinks};
ghost use Rattle.std.proofs.Common.{rules, arith};

use super::chosen::ChosenPolicy;
use super::fixed::Fixed;
use super::policy::Policy;
use super::shrinking::Shrinking;

/// No bet of a shrinking policy is larger.
const MOST: u64 = 950;

/// So many values are counted; after them a shrinking policy stands still.
const LAST: u16 = 20_000;

impl Policy for Fixed {
    ghost State = { ℕ };

    ghost state = { λ p. p.bet };

    ghost bets = { λ s. min s 1000 };

    ghost told = { λ s _. s };

    ghost modest = { Prim.search rules };

    fn bet(&self) -> u16
        ensures { result ≡ min self.now.bet 1000 }
    {
        self.bet.min(1000)
    }

    fn tell(&mut self, _value: u16)
        ensures { self.new ≡ self.old }
    {}
}

impl Shrinking {
    /// A policy that was told nothing yet, where first bet, weight, half and top are in their ranges.
    // The four come together only in this call; what holds them from then on is the policy itself.
    #[tactic(auto, using(crate::proofs::Runs::runs))]
    pub fn new(first: u16, weight: u16, half: u16, top: u16) -> Option<Shrinking>
        ensures is { in_state result ≡ shrinking_from first weight half top }
        ensures runs { RunsByTheRule first weight half top }
    {
        let begins = first <= 1000 && (1..=1000).contains(&weight);
        let spread = (1..top).contains(&half) && top <= 1000;
        if !begins || !spread {
            return None;
        }
        Some(Shrinking {
            first,
            weight,
            half,
            top,
            counted: 0,
            excess: 0,
        })
    }
}

impl Policy for Shrinking {
    ghost State = { Shrinks };

    ghost state = { shrinks };

    ghost bets = { shrinking_bet };

    ghost told = { shrinking_told };

    ghost modest = { first_of (Prim.search rules, Prim.grind (arith, Self.row.coded.inj)) };

    fn bet(&self) -> u16
        ensures { result ≡ shrinking_bet (shrinks self.now) }
    {
        let spread = (self.top - self.half) as u64;
        let base = self.weight as u64 * self.first as u64 * spread;
        let dividend = base as i64 + 1000 * self.excess as i64;
        let divisor = spread * (self.weight as u64 + self.counted as u64);
        let bet = u64::try_from(dividend).unwrap_or(0) / divisor;
        bet.min(MOST) as u16
    }

    fn tell(&mut self, value: u16)
        ensures { shrinks self.new ≡ shrinking_told (shrinks self.old) value }
    {
        let value = value.min(self.top);
        if value != self.half && self.counted < LAST {
            self.counted += 1;
            self.excess += value as i32 - self.half as i32;
        }
    }
}

impl Policy for ChosenPolicy {
    ghost State = { Chosen };

    ghost state = { chosen_state };

    ghost bets = { chosen_bet };

    ghost told = { chosen_told };

    ghost modest = { Prim.search rules };

    fn bet(&self) -> u16
        ensures { result ≡ chosen_bet (chosen_state self.now) }
    {
        match self {
            ChosenPolicy::Fixed(policy) => policy.bet(),
            ChosenPolicy::Shrinking(policy) => policy.bet(),
        }
    }

    fn tell(&mut self, value: u16)
        ensures { chosen_state self.new ≡ chosen_told (chosen_state self.old) value }
    {
        match self {
            ChosenPolicy::Fixed(policy) => policy.tell(value),
            ChosenPolicy::Shrinking(policy) => policy.tell(value),
        }
    }
}
