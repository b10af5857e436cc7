ghost use Rattle.std.specs.Prelude.{◌≡◌, ◌≤◌, ◌↔◌, IsTrue};
ghost use Rattle.betting.specs.Accounts.{account, cut, InRange, fresh_account, played, tallied};
ghost use Rattle.betting.specs.Sums.{risk_of, settled};

use super::policy::Policy;
use super::records::Record;
use super::sums::{GOAL, held_wealth_after, peak_after, risk};

/// The wealth of a record that has seen no card.
const START: u64 = 1_000_000_000;

/// No record's wealth or peak is higher.
const MOST: u64 = 100_000_000_000_000;

/// The tally stops here.
const LAST_TALLY: u32 = 65_535_000;

impl<A, P: Policy> Record<A, P> {
    /// The record of an assertion that has seen no card.
    pub fn start(assorter: A, policy: P) -> Record<A, P>
        ensures { account P.state result ≡ fresh_account assorter (P.state policy) }
    {
        Record {
            assorter,
            policy,
            wealth: START,
            peak: START,
            tally: 0,
        }
    }

    /// Whether the assertion needs no more draws at the risk limit, in thousandths.
    pub fn is_settled(&self, risk_limit: u16) -> bool
        ensures is { result ≡ settled self.now.peak risk_limit }
        ensures pencil { IsTrue result ↔ (risk_of self.now.peak ≤ risk_limit) }
    {
        // In 64 bits, which hold a record's peak times any limit.
        self.peak * risk_limit as u64 >= GOAL
    }

    /// The assertion's measured risk in thousandths, by the highest wealth so far.
    pub fn risk(&self) -> u64
        ensures { result ≡ risk_of self.now.peak }
    {
        risk(self.peak)
    }

    /// Adds a card's value to the tally of the hand count.
    pub fn add_to_tally(&mut self, value: u16)
        ensures { account P.state self.new ≡ tallied value (account P.state self.old) }
    {
        self.tally = (self.tally + value as u32).min(LAST_TALLY);
    }
}

/// Plays a card's value on an assertion that isn't settled at the risk limit: asks the policy
/// for its bet, moves wealth and peak, then tells the policy the value. A settled record stays as
/// it is.
#[tactic(auto, using(crate::proofs::Cuts::cut_played, crate::proofs::Cuts::played_low, crate::proofs::Cuts::uncut))]
pub fn play<A: Copy, P: Policy + Copy>(
    held: &mut Record<A, P>,
    half: u16,
    value: u16,
    risk_limit: u16,
)
    ensures moves { account P.state held.new ≡ cut (played P.bets P.told half value risk_limit (account P.state held.old)) }
    ensures rules { InRange value risk_limit → account P.state held.new ≡ played P.bets P.told half value risk_limit (account P.state held.old) }
{
    if held.is_settled(risk_limit) {
        return;
    }
    let assorter = held.assorter;
    let mut policy = held.policy;
    let tally = held.tally;
    let bet = policy.bet();
    let grown = held_wealth_after(held.wealth, bet, half, value);
    let wealth = grown.min(MOST);
    let peak = peak_after(held.peak, wealth);
    policy.tell(value);
    *held = Record {
        assorter,
        policy,
        wealth,
        peak,
        tally,
    };
}
