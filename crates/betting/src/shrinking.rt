ghost use Rattle.std.specs.Prelude.{◌*◌, ◌<◌, ◌≤◌, pos, neg_ℤ, ◌≤ℤ◌};
ghost use Rattle.betting.specs.Limits.{last_counted};

/// A bet that moves from its first value to what the values told speak for; the weight says how
/// many values the first bet is worth.
#[derive(Clone, Copy)]
pub struct Shrinking {
    pub(super) first: u16,
    pub(super) weight: u16,
    pub(super) half: u16,
    pub(super) top: u16,
    /// How many of the values told differ from half.
    pub(super) counted: u16,
    /// By how much these are above half, taken together.
    pub(super) excess: i32,
    ghost begins: { (first ≤ 1000) × (1 ≤ weight) × (weight ≤ 1000) },
    ghost spread: { (1 ≤ half) × (half < top) × (top ≤ 1000) },
    ghost bounds: { (counted ≤ last_counted) × (neg_ℤ (pos (1000 * counted)) ≤ℤ excess) × (excess ≤ℤ pos (1000 * counted)) },
}
