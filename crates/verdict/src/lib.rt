//! What an audit answers.
#![tactic(auto)]

ghost use Rattle.std.specs.Prelude.{◌≡◌, length, min, take};

/// What the members are to do next.
#[derive(Clone, Copy, PartialEq, Eq, Debug)]
pub enum Finding {
    /// Every assertion met the risk limit: the reported outcomes stand.
    Confirm,
    /// Draw another card.
    Continue,
    /// Count every card by hand.
    FullHandCount,
}

/// The state of an audit after some draws.
#[derive(Clone, Copy, PartialEq, Eq, Debug)]
// The fields stand in an order that leaves no gap: an answer is copied with every entry, and one with
// gaps takes half as long again.
pub struct Verdict {
    pub finding: Finding,
    /// How many contests there are; an audit leaves zeros in the places of `risks` beyond them.
    pub contests: u8,
    pub draws: u16,
    /// The risk of each contest in thousandths, the first contest's in place 0.
    // An array: an answer is copied into the caller's memory, and an `ArrayVec` is not `Copy`.
    pub risks: [u16; 8],
}

impl Verdict {
    ghost use Rattle.verdict.specs.Contests.{contest_risks};

    /// The risk of each contest, first to last. Contests above 8 count as 8.
    pub fn contest_risks(&self) -> &[u16]
        ensures contests { result.now ≡ contest_risks self.now }
        ensures count { length result.now ≡ min self.now.contests 8 }
    {
        of_contests(&self.risks, self.contests)
    }
}

/// What a full hand count found.
#[derive(Clone, Copy, PartialEq, Eq, Debug)]
pub struct Closing {
    /// How many contests there are; an audit upholds nothing in the places beyond them.
    pub contests: u8,
    /// Does the count give the reported winners? The first contest's answer is in place 0.
    // An array, as in a verdict.
    pub upheld: [bool; 8],
}

impl Closing {
    ghost use Rattle.verdict.specs.Contests.{contests_upheld};

    /// Whether the count upholds each contest, first to last. Contests above 8 count as 8.
    pub fn contests_upheld(&self) -> &[bool]
        ensures contests { result.now ≡ contests_upheld self.now }
        ensures count { length result.now ≡ min self.now.contests 8 }
    {
        of_contests(&self.upheld, self.contests)
    }
}

/// The first places, one for each contest; there are no more than eight.
fn of_contests<T>(places: &[T; 8], contests: u8) -> &[T]
    ensures first { result.now ≡ take contests places.now }
    ensures count { length result.now ≡ min contests 8 }
{
    &places[..usize::from(contests).min(places.len())]
}
