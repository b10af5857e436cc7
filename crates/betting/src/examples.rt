//! Examples that can be worked out by hand.
ghost use Rattle.std.specs.Prelude.{◌≡◌, [], ◌∷◌, Some};
ghost use Rattle.betting.specs.Examples.{WorkedBets, WorkedWealth};

use super::policy::Policy;
use super::shrinking::Shrinking;
use super::sums::wealth_after;

/// A pair's wealth after a win at the start, after a loss then, and after a loss at the start.
pub fn worked_wealth() -> [u128; 3]
    ensures computed { result ≡ 1200000000 ∷ 960000000 ∷ 800000000 ∷ [] }
    ensures shown { WorkedWealth }
{
    [
        wealth_after(1_000_000_000, 200, 1, 2),
        wealth_after(1_200_000_000, 200, 1, 0),
        wealth_after(1_000_000_000, 200, 1, 0),
    ]
}

/// A pair's shrinking bet after one win.
pub fn worked_bet() -> Option<u16>
    ensures computed { result ≡ Some 207 }
    ensures shown { WorkedBets }
{
    let mut policy = Shrinking::new(200, 100, 1, 2)?;
    policy.tell(2);
    Some(policy.bet())
}
