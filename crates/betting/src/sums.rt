//! Wealth and risk in whole numbers. The sums have 128 bits, so that they are the rules' own
//! numbers on every argument.
ghost use Rattle.std.specs.Prelude.{◌≡◌, ◌*◌, ◌^◌, ◌<◌, ◌≤◌, max, ◌↔◌, IsTrue};
ghost use Rattle.betting.specs.Limits.{most_wealth};
ghost use Rattle.betting.specs.Sums.{ModestGrowth, payoff_of, PayoffByPencil, risk_of, RiskByPencil, settled, stake_of, StakeByPencil, wealth_after};

/// A wealth that grew to a thousand times its start has the risk of 1 in 1,000.
pub(super) const GOAL: u64 = 1_000_000_000_000;

/// What a bet, in thousandths of the wealth, puts at stake.
pub fn stake(wealth: u64, bet: u16) -> u128
    ensures is { result ≡ stake_of wealth bet }
    ensures pencil { StakeByPencil wealth bet result }
{
    wealth as u128 * bet as u128 / 1000
}

/// What a stake brings on a card of this value; a half of 0, which no assorter has, brings nothing.
// A value stands beside a half only in sums: policies and tallies take the value alone.
pub fn payoff(stake: u64, half: u16, value: u16) -> u128
    ensures is { result ≡ payoff_of stake half value }
    ensures pencil { PayoffByPencil stake half value result }
{
    wide_payoff(stake as u128, half, value)
}

/// The same of a stake that a bet above 1,000 thousandths would make, which no policy does.
// Apart from `payoff`, which asks nothing of its caller: times a value, not every u128 fits.
#[tactic(auto, using(crate::proofs::Pencil::payoff_le, crate::proofs::Pencil::payoff_pencil))]
fn wide_payoff(stake: u128, half: u16, value: u16) -> u128
    requires { stake < 2 ^ 80 }
    ensures is { result ≡ payoff_of stake half value }
    ensures pencil { PayoffByPencil stake half value result }
    ensures low { result ≤ stake * value }
{
    if half == 0 {
        return 0;
    }
    stake * value as u128 / half as u128
}

/// The same from a wealth that a record can have, by a bet that a policy can make.
// In 64 bits, which hold these sums: a division of 128 bits takes several times as long.
#[tactic(auto, using(crate::proofs::Pencil::stake_low, crate::proofs::Pencil::payoff_low))]
pub(super) fn held_wealth_after(wealth: u64, bet: u16, half: u16, value: u16) -> u64
    requires held { wealth ≤ most_wealth }
    requires modest { bet ≤ 1000 }
    ensures { result ≡ wealth_after wealth bet half value }
{
    let at_stake = wealth * bet as u64 / 1000;
    let kept = wealth.saturating_sub(at_stake);
    if half == 0 {
        return kept;
    }
    kept + at_stake * value as u64 / half as u64
}

/// The wealth after a bet on a card of this value.
#[tactic(auto, using(crate::proofs::Pencil::growth, crate::proofs::Pencil::payoff_pencil))]
pub fn wealth_after(wealth: u64, bet: u16, half: u16, value: u16) -> u128
    ensures is { result ≡ wealth_after wealth bet half value }
    ensures pays { PayoffByPencil (stake_of wealth bet) half value (payoff_of (stake_of wealth bet) half value) }
    ensures growth { ModestGrowth wealth bet value result }
{
    let at_stake = stake(wealth, bet);
    (wealth as u128).saturating_sub(at_stake) + wide_payoff(at_stake, half, value)
}

/// The peak after the wealth moved.
pub fn peak_after(peak: u64, wealth: u64) -> u64
    ensures { result ≡ max peak wealth }
{
    peak.max(wealth)
}

/// Whether an assertion with this peak needs no more draws at the risk limit, in thousandths.
#[tactic(auto, using(crate::proofs::Pencil::settled_pencil))]
pub fn is_settled(peak: u64, risk_limit: u16) -> bool
    ensures is { result ≡ settled peak risk_limit }
    ensures pencil { IsTrue result ↔ (risk_of peak ≤ risk_limit) }
{
    peak as u128 * risk_limit as u128 >= GOAL as u128
}

/// The measured risk in thousandths, rounded up; a peak of 0, which no record has, counts as 1.
pub fn risk(peak: u64) -> u64
    ensures is { result ≡ risk_of peak }
    ensures pencil { RiskByPencil peak result }
{
    GOAL.div_ceil(peak.max(1))
}
