//! The records with which an audit is opened.
#![tactic(auto)]

mod policies;
mod starts;

pub use policies::first_policy;
pub use starts::{start_records, start_with};

#[cfg(test)]
mod tests {
    use super::*;
    use assertion::{Assertion, Pair, Planned, Share};
    use betting::{ChosenPolicy, Fixed, Policy, Record};
    use refusal::Refusal;
    use setup::PolicyChoice;
    use std::test::Fail;

    fn plans() -> [Planned; 2] {
        let pair = Pair {
            contest: 0,
            most_marks: 1,
            winner: 0,
            loser: 1,
        };
        let share = Share {
            contest: 1,
            winner: 0,
            p: 1,
            q: 2,
        };
        [
            Planned {
                assertion: Assertion::Pair(pair),
                first_bet: 200,
            },
            Planned {
                assertion: Assertion::Share(share),
                first_bet: 400,
            },
        ]
    }

    // A record that a start replaces: its bet is 7.
    fn blank() -> Record<Assertion, ChosenPolicy> {
        let [first, _] = plans();
        Record::start(first.assertion, ChosenPolicy::Fixed(Fixed { bet: 7 }))
    }

    #[test]
    fn shrinking_from_the_first_bet(rt: HostRuntime) -> Result<(), Fail> {
        let mut records = [blank(); 3];
        start_records(
            &plans(),
            PolicyChoice::Shrinking { weight: 1 },
            &mut records,
        )?;
        let [first, mut second, third] = records;
        assert_eq!(rt;
            (second.wealth, second.peak, second.tally),
            (1_000_000_000, 1_000_000_000, 0)
        );
        assert_eq!(rt; first.policy.bet(), 200);
        assert_eq!(rt; second.policy.bet(), 400);
        second.policy.tell(0);
        assert_eq!(rt; second.policy.bet(), 0, "after a loss");
        assert_eq!(rt; third.policy.bet(), 7);
        Ok(())
    }

    #[test]
    fn too_few_records(rt: HostRuntime) {
        let mut records = [blank(); 1];
        let refused = start_records(&plans(), PolicyChoice::Fixed, &mut records);
        assert_eq!(rt; refused, Err(Refusal::NoRoom));
        assert_eq!(rt; records[0].policy.bet(), 7);
    }

    #[test]
    fn of_the_callers_own(rt: HostRuntime) -> Result<(), Fail> {
        let mut records = [Record::start(0u8, Fixed { bet: 7 }); 3];
        let assorters = [11u8, 12, 13];
        let policies = [Fixed { bet: 1 }, Fixed { bet: 2 }];
        let refused = start_with(3, &assorters, &policies, &mut records);
        assert_eq!(rt; refused, Err(Refusal::NoRoom));
        start_with(2, &assorters, &policies, &mut records)?;
        let [first, second, third] = records;
        assert_eq!(rt;
            (first.assorter, second.assorter, third.assorter),
            (11, 12, 0)
        );
        assert_eq!(rt;
            (first.policy.bet(), second.policy.bet(), third.policy.bet()),
            (1, 2, 7)
        );
        Ok(())
    }
}
