ghost use Rattle.std.specs.Prelude.{◌≡◌, ◌<◌};
ghost use Rattle.ballot.specs.Votes.{marked};
ghost use Rattle.assorter.specs.Values.{limited_vote, one_mark};

use assertion::ANY_MARKS;

/// Whether the candidate is marked.
pub(super) fn is_marked(n: u32, candidate: u8) -> bool
    requires { candidate < 32 }
    ensures { result ≡ marked candidate n }
{
    (n >> candidate) % 2 == 1
}

/// Whether the marks give the candidate a vote, where at most so many count.
pub(super) fn gives_vote(most_marks: u8, n: u32, candidate: u8) -> bool
    requires { candidate < 32 }
    ensures { result ≡ limited_vote most_marks candidate n }
{
    let counts = most_marks >= ANY_MARKS || n.count_ones() <= most_marks as u32;
    counts && is_marked(n, candidate)
}

/// Whether just one candidate is marked.
pub(super) fn has_one_mark(n: u32) -> bool
    ensures { result ≡ one_mark n }
{
    n.count_ones() == 1
}
