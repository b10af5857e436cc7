ghost use Rattle.std.specs.Prelude.{map, ◌↔◌, IsTrue};
ghost use Rattle.ballot.specs.Votes.{VotesAddUp};
ghost use Rattle.assertion.specs.Assertions.{plan_of};
ghost use Rattle.assorter.specs.Outcomes.{AllHold, ClaimsTellContest, ClaimsTellContests, TellsContest, TellsContests};

use super::assorters::Assorter;
use assertion::Planned;
use ballot::Card;

/// Whether the claim is true of these cards, by their values; 128 bits hold the sum of any slice.
pub fn holds<A: Assorter>(assorter: &A, cards: &[Card]) -> bool
    ensures { IsTrue result ↔ A.claims assorter.now cards.now }
{
    let sum: u128 = cards
        .iter()
        .map(|card| u128::from(assorter.value(card)))
        .sum();
    let needed = assorter.half() as u128 * cards.len() as u128;
    needed < sum
}

/// Whether the claims of all these assertions are true of the cards. Of the assertions that a
/// contest makes, that is whether its reported winners truly won.
pub fn all_hold(assertions: &[Planned], cards: &[Card]) -> bool
    ensures decides { IsTrue result ↔ AllHold (map plan_of assertions.now) cards.now }
    ensures contest { TellsContest result assertions.now cards.now }
    ensures contests { TellsContests result assertions.now cards.now }
    ensures means { (ClaimsTellContest) × (ClaimsTellContests) }
    ensures totals { VotesAddUp }
{
    assertions
        .iter()
        .all(|planned| holds(&planned.assertion, cards))
}
