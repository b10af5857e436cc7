ghost use Rattle.std.specs.Prelude.{◌≤◌};
ghost use Rattle.betting.specs.Limits.{last_tally, most_wealth};

use std::alloc::AllocError;

/// What is known so far of one assertion: its assorter, its policy, the wealth of the game that is
/// played on it, the highest wealth so far, and the sum of the values of the hand count.
pub struct Record<A, P> {
    pub assorter: A,
    pub policy: P,
    pub wealth: u64,
    pub peak: u64,
    pub tally: u32,
    ghost ranges: { (wealth ≤ peak) × (1000000000 ≤ peak) × (peak ≤ most_wealth) × (tally ≤ last_tally) },
}

impl<A: Copy, P: Copy> Clone for Record<A, P> {
    ghost use Rattle.std.specs.Prelude.{◌≡◌, ⊤, Ok};

    ghost is_clone = { λ x y. y ≡ x };

    ghost is_infallible = { λ _. ⊤ };

    fn clone(&self) -> Result<Record<A, P>, AllocError>
        ensures { result ≡ Ok self.now }
    {
        Ok(*self)
    }
}

impl<A: Copy, P: Copy> Copy for Record<A, P> {}
