ghost use Rattle.setup.specs.Described.{most_draws};
ghost use Rattle.std.specs.Prelude.{◌≡◌, ◌<◌, ◌≤◌, map, length, take, sum, MatchResult};
ghost use Rattle.refusal.specs.declared.Refusal.TheVariants.{NoRoom};

mod contests;
mod showing;

use arrayvec::ArrayVec;
use ballot::CONTESTS;
pub(crate) use contests::{contest_risks, contests_above};
use refusal::Refusal;
pub(crate) use showing::check_shown;

/// How many candidates a contest has, and how many assertions it makes.
#[derive(Clone, Copy, Default)]
pub(crate) struct Size {
    pub(crate) candidates: u8,
    pub(crate) assertions: u16,
}

/// The terms of an audit.
#[derive(Drop)]
pub(crate) struct Terms {
    pub(crate) cards: u16,
    pub(crate) risk_limit: u16,
    pub(crate) draw_limit: u16,
    /// The size of each contest.
    pub(crate) sizes: ArrayVec<Size, CONTESTS>,
    /// How many assertions there are in all contests.
    pub(crate) needed: usize,
    ghost ranges: { (10 ≤ risk_limit) × (risk_limit ≤ 500) × (draw_limit ≤ most_draws) × (length sizes.items ≤ 8) × (cards ≤ 65535) },
    ghost a_card: { 1 ≤ cards },
    ghost total: { needed ≡ sum (map (λ x. x.assertions) sizes.items) },
}

impl Terms {
    /// The records of the assertions, the first of those lent. Too few are refused.
    pub(crate) fn own<'r, R>(&self, records: &'r [R]) -> Result<&'r [R], Refusal>
        ensures { MatchResult result (λ own. (self.now.needed ≤ length records.now) × (own.now ≡ take self.now.needed records.now)) (λ e. (length records.now < self.now.needed) × (e ≡ NoRoom)) }
    {
        records.get(..self.needed).ok_or(Refusal::NoRoom)
    }
}
