ghost use Rattle.std.specs.Prelude.{◌≡◌};
ghost use Rattle.assertion.specs.Assertions.{claim_of, pair, share};
ghost use Rattle.assertion.specs.Values.{half_of, top_of};
ghost use Rattle.assorter.specs.Values.{Holds, worth};
ghost use Rattle.assorter.specs.Exact.{exact_claim};
ghost use Rattle.std.proofs.Common.{rules};
ghost use Rattle.assertion.specs.declared.assertions.Assertion.TheVariants.{Pair, Share};

use super::assorters::Assorter;
use super::marks::{gives_vote, has_one_mark, is_marked};
use assertion::{Assertion, Pair, Share};
use ballot::Card;

/// A vote for the winner alone is worth 2, one for the loser alone 0, any other card 1.
impl Assorter for Pair {
    ghost halves = { λ _. 1 };

    ghost tops = { λ _. 2 };

    ghost values = { λ a. worth (pair a.contest a.most_marks a.winner a.loser) };

    ghost claims = { λ a. Holds (pair a.contest a.most_marks a.winner a.loser) };

    ghost bounds = { Prim.search rules };

    ghost capped = { Prim.search rules };

    ghost exact = { λ a. exact_claim (pair a.contest a.most_marks a.winner a.loser) };

    fn half(&self) -> u16
        ensures { result ≡ 1 }
    {
        1
    }

    fn top(&self) -> u16
        ensures { result ≡ 2 }
    {
        2
    }

    fn value(&self, card: &Card) -> u16
        ensures { result ≡ worth (pair self.now.contest self.now.most_marks self.now.winner self.now.loser) card.now }
    {
        let n = card.marks[self.contest as usize];
        let winner = gives_vote(self.most_marks, n, self.winner);
        let loser = gives_vote(self.most_marks, n, self.loser);
        match (winner, loser) {
            (true, false) => self.top(),
            (false, true) => 0,
            _ => self.half(),
        }
    }
}

/// A vote for the winner is worth q, one for another 0, a card without a vote p.
impl Assorter for Share {
    ghost halves = { λ a. a.p };

    ghost tops = { λ a. a.q };

    ghost values = { λ a. worth (share a.contest a.winner a.p a.q) };

    ghost claims = { λ a. Holds (share a.contest a.winner a.p a.q) };

    ghost bounds = { Prim.search rules };

    ghost capped = { Prim.search rules };

    ghost exact = { λ a. exact_claim (share a.contest a.winner a.p a.q) };

    fn half(&self) -> u16
        ensures { result ≡ self.now.p }
    {
        self.p
    }

    fn top(&self) -> u16
        ensures { result ≡ self.now.q }
    {
        self.q
    }

    fn value(&self, card: &Card) -> u16
        ensures { result ≡ worth (share self.now.contest self.now.winner self.now.p self.now.q) card.now }
    {
        let n = card.marks[self.contest as usize];
        match (has_one_mark(n), is_marked(n, self.winner)) {
            (true, true) => self.top(),
            (true, false) => 0,
            (false, _) => self.half(),
        }
    }
}

impl Assorter for Assertion {
    ghost halves = { half_of };

    ghost tops = { top_of };

    ghost values = { λ a. worth (claim_of a) };

    ghost claims = { λ a. Holds (claim_of a) };

    ghost bounds = { Prim.search rules };

    ghost capped = { Prim.search rules };

    ghost exact = { elim [
      | Pair a ↦ exact_claim (claim_of (Pair a))
      | Share a ↦ exact_claim (claim_of (Share a))
    ] };

    fn half(&self) -> u16
        ensures { result ≡ half_of self.now }
    {
        Assertion::half(self)
    }

    fn top(&self) -> u16
        ensures { result ≡ top_of self.now }
    {
        Assertion::top(self)
    }

    fn value(&self, card: &Card) -> u16
        ensures { result ≡ worth (claim_of self.now) card.now }
    {
        match self {
            Assertion::Pair(pair) => pair.value(card),
            Assertion::Share(share) => share.value(card),
        }
    }
}
