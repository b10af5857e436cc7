//! Whole audits as tests, each on an example that can be worked out by hand.
#![tactic(auto)]

#[cfg(test)]
mod own;

#[cfg(test)]
mod tests {
    use crate::own::{Turnout, Wary};
    use assertion::{Assertion, Share};
    use ballot::{Candidate, Card, Contest, Kind};
    use betting::{ChosenPolicy, Fixed, Record};
    use calls::{
        Answer, Audit, CountCall, DrawCall, HandCount, Reading, Standing, open, open_with,
    };
    use conduct::conduct;
    use format::commands_in;
    use refusal::{Fault, File, Refusal};
    use replay::replay;
    use setup::{PolicyChoice, Setup, Terms};
    use std::process::Abort;
    use std::test::Fail;
    use verdict::{Closing, Finding, Verdict};

    type Records = [Record<Assertion, ChosenPolicy>; 2];

    const ADAMS: Card = Card {
        marks: [1, 0, 0, 0, 0, 0, 0, 0],
    };

    const NOBODY: Card = Card {
        marks: [0, 0, 0, 0, 0, 0, 0, 0],
    };

    fn shown(place: u16, found: u8, card: Card) -> Reading {
        Reading { place, found, card }
    }

    fn blank() -> Records {
        let share = Share {
            contest: 0,
            winner: 0,
            p: 1,
            q: 2,
        };
        let policy = ChosenPolicy::Fixed(Fixed { bet: 0 });
        [Record::start(Assertion::Share(share), policy); 2]
    }

    fn numbers(cards: u16) -> Setup {
        Setup {
            batches: 1,
            cards,
            terms: Terms {
                risk_limit: 50,
                draw_limit: 20,
                policy: PolicyChoice::Fixed,
            },
            contests: 1,
            candidates: 2,
            assertions: 1,
        }
    }

    fn board() -> [Contest; 1] {
        [Contest {
            kind: Kind::Plurality,
            candidates: 2,
            seats: 1,
        }]
    }

    fn slate(adams: u16, baker: u16) -> [Candidate; 2] {
        [
            Candidate {
                name: *b"ADAMS   ",
                votes: adams,
            },
            Candidate {
                name: *b"BAKER   ",
                votes: baker,
            },
        ]
    }

    fn opened(cards: u16, adams: u16, baker: u16, records: &mut Records) -> Result<Audit, Fail> {
        let audit = open(numbers(cards), &board(), &slate(adams, baker), records);
        audit.map_err(|_| Fail::new("the setup should be opened"))
    }

    fn asked(audit: &Audit, records: &Records) -> Result<Verdict, Fail> {
        audit
            .verdict(records)
            .map_err(|_| Fail::new("a verdict is due"))
    }

    fn enter_times(
        rt: &impl Abort,
        audit: &mut Audit,
        records: &mut [Record<Assertion, ChosenPolicy>],
        times: u8,
        shown: &Reading,
    ) {
        for _ in 0..times {
            assert_eq!(rt; audit.enter(records, shown), Ok(()));
        }
    }

    #[test]
    fn sixteen_wins_and_one_more(rt: HostRuntime) -> Result<(), Fail> {
        let mut records = blank();
        let mut audit = opened(100, 60, 40, &mut records)?;
        enter_times(&rt, &mut audit, &mut records, 16, &shown(1, 1, ADAMS));
        let verdict = asked(&audit, &records)?;
        assert_eq!(rt; verdict.finding, Finding::Continue);
        assert_eq!(rt; (verdict.draws, verdict.risks[0]), (16, 55));
        assert_eq!(rt; audit.enter(&mut records, &shown(1, 1, ADAMS)), Ok(()));
        let verdict = asked(&audit, &records)?;
        assert_eq!(rt; verdict.finding, Finding::Confirm);
        assert_eq!(rt; (verdict.draws, verdict.risks[0]), (17, 46));
        let late = audit.enter(&mut records, &shown(1, 1, ADAMS));
        assert_eq!(rt; late, Err(Refusal::NoDrawsLeft));
        assert_eq!(rt; asked(&audit, &records)?, verdict);
        Ok(())
    }

    #[test]
    fn draws_spent(rt: HostRuntime) -> Result<(), Fail> {
        let mut records = blank();
        let mut audit = opened(100, 60, 40, &mut records)?;
        enter_times(&rt, &mut audit, &mut records, 20, &shown(1, 0, NOBODY));
        let verdict = asked(&audit, &records)?;
        assert_eq!(rt; verdict.finding, Finding::FullHandCount);
        let late = audit.enter(&mut records, &shown(1, 0, NOBODY));
        assert_eq!(rt; late, Err(Refusal::NoDrawsLeft));
        assert_eq!(rt; asked(&audit, &records)?, verdict);
        Ok(())
    }

    #[test]
    fn refused_entries_leave_all(rt: HostRuntime) -> Result<(), Fail> {
        let mut records = blank();
        let mut audit = opened(100, 60, 40, &mut records)?;
        assert_eq!(rt; audit.enter(&mut records, &shown(1, 1, ADAMS)), Ok(()));
        let before = asked(&audit, &records)?;
        let third = Card {
            marks: [4, 0, 0, 0, 0, 0, 0, 0],
        };
        let short = audit.enter(&mut records[0..0], &shown(0, 2, third));
        assert_eq!(rt; short, Err(Refusal::NoRoom));
        assert_eq!(rt;
            audit.enter(&mut records, &shown(0, 2, third)),
            Err(Refusal::BadPlace)
        );
        assert_eq!(rt;
            audit.enter(&mut records, &shown(101, 1, ADAMS)),
            Err(Refusal::BadPlace)
        );
        assert_eq!(rt;
            audit.enter(&mut records, &shown(1, 2, third)),
            Err(Refusal::BadFound)
        );
        assert_eq!(rt;
            audit.enter(&mut records, &shown(1, 1, third)),
            Err(Refusal::BadMarks)
        );
        assert_eq!(rt;
            audit.enter(&mut records, &shown(1, 0, ADAMS)),
            Err(Refusal::BadMarks)
        );
        assert_eq!(rt; asked(&audit, &records)?, before);
        assert_eq!(rt; audit.verdict(&records[0..0]), Err(Refusal::NoRoom));
        Ok(())
    }

    fn count_cards(
        rt: &impl Abort,
        hand: &mut HandCount,
        records: &mut [Record<Assertion, ChosenPolicy>],
        cards: u16,
        found: u16,
    ) {
        for place in 1..=cards {
            let next = if place <= found {
                shown(place, 1, ADAMS)
            } else {
                shown(place, 0, NOBODY)
            };
            assert_eq!(rt; hand.count(records, &next), Ok(()));
        }
    }

    fn upheld(rt: &impl Abort, cards: u16, found: u16) -> Result<bool, Fail> {
        let mut records = blank();
        let mut hand = opened(cards, cards, 0, &mut records)?.escalate();
        count_cards(rt, &mut hand, &mut records, cards, found);
        let closing = hand
            .close(&records)
            .map_err(|_| Fail::new("the count is finished"))?;
        Ok(closing.upheld[0])
    }

    #[test]
    fn hand_counts_with_a_missing_card(rt: HostRuntime) -> Result<(), Fail> {
        assert!(rt; upheld(&rt, 3, 2)?, "4 is above 3");
        assert!(rt; !upheld(&rt, 2, 1)?, "2 is not above 2");
        Ok(())
    }

    #[test]
    fn refused_counts(rt: HostRuntime) -> Result<(), Fail> {
        let mut records = blank();
        let mut hand = opened(2, 2, 0, &mut records)?.escalate();
        assert_eq!(rt;
            hand.count(&mut records, &shown(2, 1, ADAMS)),
            Err(Refusal::NotTheNextPlace)
        );
        assert_eq!(rt;
            hand.count(&mut records, &shown(3, 1, ADAMS)),
            Err(Refusal::BadPlace)
        );
        assert_eq!(rt;
            hand.count(&mut records[0..0], &shown(1, 1, ADAMS)),
            Err(Refusal::NoRoom)
        );
        assert_eq!(rt; hand.count(&mut records, &shown(1, 1, ADAMS)), Ok(()));
        assert_eq!(rt;
            hand.close(&records),
            Err(Refusal::CountUnfinished),
            "one card is left"
        );
        Ok(())
    }

    // What a refusal must leave of the record.
    fn sums(records: &Records) -> (u64, u64, u32) {
        let [held, _] = records;
        (held.wealth, held.peak, held.tally)
    }

    #[test]
    fn refused_entries_leave_the_record(rt: HostRuntime) -> Result<(), Fail> {
        let mut records = blank();
        let mut audit = opened(100, 60, 40, &mut records)?;
        assert_eq!(rt; audit.enter(&mut records, &shown(1, 1, ADAMS)), Ok(()));
        assert_eq!(rt; sums(&records), (1_200_000_000, 1_200_000_000, 0));
        assert_eq!(rt;
            audit.enter(&mut records, &shown(0, 1, ADAMS)),
            Err(Refusal::BadPlace)
        );
        assert_eq!(rt;
            audit.enter(&mut records, &shown(1, 2, ADAMS)),
            Err(Refusal::BadFound)
        );
        assert_eq!(rt;
            audit.enter(&mut records, &shown(1, 0, ADAMS)),
            Err(Refusal::BadMarks)
        );
        assert_eq!(rt; sums(&records), (1_200_000_000, 1_200_000_000, 0));
        Ok(())
    }

    #[test]
    fn refused_counts_leave_the_tally(rt: HostRuntime) -> Result<(), Fail> {
        let mut records = blank();
        let mut hand = opened(2, 2, 0, &mut records)?.escalate();
        assert_eq!(rt; hand.count(&mut records, &shown(1, 1, ADAMS)), Ok(()));
        assert_eq!(rt;
            hand.count(&mut records, &shown(2, 2, ADAMS)),
            Err(Refusal::BadFound)
        );
        assert_eq!(rt;
            hand.count(&mut records, &shown(2, 0, ADAMS)),
            Err(Refusal::BadMarks)
        );
        assert_eq!(rt;
            hand.count(&mut records, &shown(1, 1, ADAMS)),
            Err(Refusal::NotTheNextPlace)
        );
        assert_eq!(rt; hand.close(&records), Err(Refusal::CountUnfinished));
        assert_eq!(rt; hand.close(&records[0..0]), Err(Refusal::NoRoom));
        assert_eq!(rt; sums(&records), (1_000_000_000, 1_000_000_000, 2));
        assert_eq!(rt; hand.count(&mut records, &shown(2, 0, NOBODY)), Ok(()));
        let closing = hand
            .close(&records)
            .map_err(|_| Fail::new("the count is finished"))?;
        assert!(rt; !closing.upheld[0], "2 is not above 2");
        Ok(())
    }

    #[test]
    fn not_opened(rt: HostRuntime) -> Result<(), Fail> {
        let mut records = blank();
        let tie = open(numbers(100), &board(), &slate(50, 50), &mut records);
        let Err(refused) = tie else {
            return Err(Fail::new("a tie is no setup"));
        };
        assert_eq!(rt;
            (refused.refusal, refused.setup.cards),
            (Refusal::NoSetup, 100)
        );
        let short = open(numbers(100), &board(), &slate(60, 40), &mut records[0..0]);
        let Err(refused) = short else {
            return Err(Fail::new("there is no record"));
        };
        assert_eq!(rt;
            (refused.refusal, refused.setup.cards),
            (Refusal::NoRoom, 100)
        );
        Ok(())
    }

    #[test]
    fn a_close_before_the_escalation(rt: HostRuntime) -> Result<(), Fail> {
        let mut records = blank();
        let audit = opened(2, 2, 0, &mut records)?;
        let mut answers = [Answer::Taken; 3];
        let replayed = replay(audit, &mut records, &[0x12, 0x15, 0x12], &mut answers);
        assert_eq!(rt; replayed.answered, 1);
        let fault = Fault {
            refusal: Refusal::OutOfOrder,
            file: File::Draws,
            offset: 1,
        };
        assert_eq!(rt; replayed.fault, Some(fault));
        assert_eq!(rt; answers[1], Answer::Taken);
        Ok(())
    }

    #[test]
    fn a_place_for_each_command(rt: HostRuntime) -> Result<(), Fail> {
        let mut records = blank();
        let audit = opened(2, 2, 0, &mut records)?;
        // An entry of place 1, found, with a mark for ADAMS, and a verdict.
        let mut file = [0; 37];
        file[0] = 0x11;
        file[2] = 1;
        file[3] = 1;
        file[7] = 1;
        file[36] = 0x12;
        assert_eq!(rt; commands_in(&file), 2);
        let mut answers = [Answer::Taken; 2];
        let short = replay(audit, &mut records, &file, &mut answers[..1]);
        let fault = Fault {
            refusal: Refusal::NoRoom,
            file: File::Draws,
            offset: 0,
        };
        assert_eq!(rt; (short.answered, short.fault), (0, Some(fault)));
        let Standing::Drawing(audit) = short.standing else {
            return Err(Fail::new("nothing is escalated"));
        };
        let replayed = replay(audit, &mut records, &file, &mut answers);
        assert_eq!(rt; (replayed.answered, replayed.fault), (2, None));
        Ok(())
    }

    #[test]
    fn own_assorters_and_policies(rt: HostRuntime) -> Result<(), Fail> {
        let mut records = [Record::start(Turnout, Wary { lost: true })];
        let opened = open_with(
            numbers(100),
            &board(),
            &slate(60, 40),
            &[Turnout],
            &[Wary { lost: false }],
            &mut records,
        );
        let mut audit = opened.map_err(|_| Fail::new("the setup should be opened"))?;
        let baker = Card {
            marks: [2, 0, 0, 0, 0, 0, 0, 0],
        };
        for (place, card) in [(1, ADAMS), (2, baker), (3, NOBODY), (4, ADAMS)] {
            assert_eq!(rt; audit.enter(&mut records, &shown(place, 1, card)), Ok(()));
        }
        let [held] = &records;
        assert_eq!(rt; (held.wealth, held.peak), (1_125_000_000, 2_250_000_000));
        let verdict = audit
            .verdict(&records)
            .map_err(|_| Fail::new("a verdict is due"))?;
        assert_eq!(rt; (verdict.draws, verdict.risks[0]), (4, 445));
        Ok(())
    }

    #[test]
    fn conducted(rt: HostRuntime) -> Result<(), Fail> {
        let mut records = blank();
        let audit = opened(3, 3, 0, &mut records)?;
        let before = [
            DrawCall::Entry(shown(1, 1, ADAMS)),
            DrawCall::Entry(shown(4, 1, ADAMS)),
            DrawCall::Verdict,
        ];
        let later = [
            CountCall::Count(shown(1, 1, ADAMS)),
            CountCall::Count(shown(3, 1, ADAMS)),
            CountCall::Count(shown(2, 1, ADAMS)),
            CountCall::Close,
            CountCall::Count(shown(3, 0, NOBODY)),
            CountCall::Close,
        ];
        let mut answers = [Err(Refusal::NoSetup); 11];
        let stands = conduct(audit, &mut records, &before, Some(&later), &mut answers);
        assert!(rt; matches!(stands, Ok(Standing::Counting(_))));
        let verdict = Verdict {
            finding: Finding::Continue,
            draws: 1,
            contests: 1,
            risks: [513, 0, 0, 0, 0, 0, 0, 0],
        };
        let closing = Closing {
            contests: 1,
            upheld: [true, false, false, false, false, false, false, false],
        };
        assert_eq!(rt;
            answers,
            [
                Ok(Answer::Taken),
                Err(Refusal::BadPlace),
                Ok(Answer::Finding(verdict)),
                Ok(Answer::Taken),
                Ok(Answer::Taken),
                Err(Refusal::NotTheNextPlace),
                Ok(Answer::Taken),
                Err(Refusal::CountUnfinished),
                Ok(Answer::Taken),
                Ok(Answer::Upheld(closing)),
                Err(Refusal::NoSetup),
            ]
        );
        Ok(())
    }
}
