//! An audit that counts every card by hand, and its calls.
ghost use Rattle.std.specs.Prelude.{◌≡◌, ◌≤◌};

use crate::answers::Reading;
use crate::terms::{Terms, check_shown, contests_above};
use assorter::Assorter;
use betting::{Policy, Record};
use refusal::Refusal;
use verdict::Closing;
use walks::count_each;

/// An audit that was escalated: every card is counted by hand.
#[derive(Drop)]
pub struct HandCount {
    pub(crate) terms: Terms,
    /// How many entries were taken before the escalation.
    // No code reads it: it keeps the draw count that the course's state has.
    pub(crate) drawn: u16,
    /// How many cards were counted.
    pub(crate) counted: u16,
    ghost places: { counted ≤ terms.cards },
}

impl HandCount {
    ghost use Rattle.std.specs.Prelude.{map, length, drop};
    ghost use Rattle.betting.specs.Accounts.{account};
    ghost use Rattle.course.specs.Course.{rules_of};
    ghost use Rattle.course.specs.Course.Call.{closing, hand_count};
    ghost use Rattle.calls.specs.Answers.{KeptOnRefusal, refusal_in};
    ghost use Rattle.calls.specs.Calls.{answer_as, called, count_state, first_refusal, in_code, reading_of, terms_of};
    ghost use Rattle.calls.specs.declared.answers.Answer.TheVariants as answer;

    /// Refuses a count with its first refusal.
    fn check_count<A, P: Policy>(
        &self,
        records: &[Record<A, P>],
        shown: &Reading,
    ) -> Result<(), Refusal>
        ensures { refusal_in result ≡ first_refusal (terms_of self.now.terms) (length records.now) (count_state self.now (map (account P.state) records.now)) (hand_count (reading_of shown.now)) }
    {
        self.terms.own(records)?;
        check_shown(&self.terms, shown)?;
        if shown.place as u32 != self.counted as u32 + 1 {
            return Err(Refusal::NotTheNextPlace);
        }
        Ok(())
    }

    /// Counts the card at the next place: each record adds the card's value to its tally, 0 for a
    /// missing card. Too few records are refused first, then a bad place, found byte or mark, then a
    /// place that isn't the next; a refusal changes nothing.
    pub fn count<A: Assorter, P: Policy>(
        &mut self,
        records: &mut [Record<A, P>],
        shown: &Reading,
    ) -> Result<(), Refusal>
        ensures course { (count_state self.new (map (account P.state) records.new), answer_as (λ done. answer.Taken) result) ≡ in_code (called (rules_of A.Assorter P.Policy) (terms_of self.old.terms) (length records.old) (count_state self.old (map (account P.state) records.old)) (hand_count (reading_of shown.now))) }
        ensures terms { self.new.terms ≡ self.old.terms }
        ensures beyond { drop self.old.terms.needed records.new ≡ drop self.old.terms.needed records.old }
        ensures kept { (KeptOnRefusal result self.old self.new) × (KeptOnRefusal result records.old records.new) }
    {
        self.check_count(records, shown)?;
        count_each(&mut records[..self.terms.needed], shown.found_card());
        self.counted += 1;
        Ok(())
    }

    /// Whether each contest is upheld: each of its assertions has a tally above a half for each card.
    /// Too few records are refused first, then a count that isn't finished.
    pub fn close<A: Assorter, P: Policy>(
        &self,
        records: &[Record<A, P>],
    ) -> Result<Closing, Refusal>
        ensures { (count_state self.now (map (account P.state) records.now), answer_as answer.Upheld result) ≡ in_code (called (rules_of A.Assorter P.Policy) (terms_of self.now.terms) (length records.now) (count_state self.now (map (account P.state) records.now)) closing) }
    {
        let terms = &self.terms;
        let own = terms.own(records)?;
        if self.counted < terms.cards {
            return Err(Refusal::CountUnfinished);
        }
        Ok(Closing {
            contests: terms.sizes.len() as u8,
            upheld: contests_above(terms, own),
        })
    }
}
