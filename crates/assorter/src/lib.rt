//! What one card is worth to each assertion, and what the values of all cards tell of the outcome.
#![tactic(auto)]

mod assorters;
mod marks;
mod outcomes;
mod values;
mod winners;

pub use assorters::Assorter;
pub use outcomes::{all_hold, holds};
pub use winners::truly_won;

#[cfg(test)]
mod tests {
    use super::*;
    use assertion::{Assertion, Pair, Planned, Share};
    use ballot::Card;

    const PAIR: Pair = Pair {
        contest: 0,
        most_marks: 2,
        winner: 0,
        loser: 1,
    };

    const SHARE: Share = Share {
        contest: 1,
        winner: 2,
        p: 2,
        q: 3,
    };

    fn card(first: u32, second: u32) -> Card {
        Card {
            marks: [first, second, 0, 0, 0, 0, 0, 0],
        }
    }

    #[test]
    fn values(rt: HostRuntime) {
        assert_eq!(rt; PAIR.value(&card(0b101, 0)), 2);
        assert_eq!(rt; PAIR.value(&card(0b110, 0)), 0);
        assert_eq!(rt; PAIR.value(&card(0b111, 0)), 1, "an overvote");
        assert_eq!(rt; Assertion::Pair(PAIR).half(), 1);
        assert_eq!(rt; SHARE.value(&card(0, 0b100)), 3);
        assert_eq!(rt; SHARE.value(&card(0, 0b001)), 0);
        assert_eq!(rt; SHARE.value(&card(0, 0b101)), 2, "no vote");
    }

    #[test]
    fn exactly_two_thirds(rt: HostRuntime) {
        let assertions = [Planned {
            assertion: Assertion::Share(SHARE),
            first_bet: 1,
        }];
        let cards = [card(0, 4), card(0, 4), card(0, 1), card(0, 0)];
        assert!(rt; !all_hold(&assertions, &cards));
        assert!(rt; all_hold(&assertions, &cards[0..2]));
    }
}
