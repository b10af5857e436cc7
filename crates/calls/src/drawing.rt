//! An audit that draws cards, and its calls.
ghost use Rattle.std.specs.Prelude.{◌≡◌, ◌≤◌, if◌then◌else◌};
ghost use Rattle.verdict.specs.declared.Finding.TheVariants.{Confirm, Continue, FullHandCount};

use crate::answers::Reading;
use crate::counting::HandCount;
use crate::terms::{Terms, check_shown, contest_risks};
use assorter::Assorter;
use betting::{Policy, Record};
use refusal::Refusal;
use verdict::{Finding, Verdict};
use walks::{each_settled, enter_from, first_unsettled};

/// An audit that draws cards. It is plain numbers; the records are lent at each call.
#[derive(Drop)]
pub struct Audit {
    pub(crate) terms: Terms,
    /// How many entries were taken.
    pub(crate) drawn: u16,
    ghost spent: { drawn ≤ terms.draw_limit },
}

impl Audit {
    ghost use Rattle.std.specs.Prelude.{map, length, take, drop, sum, IfOk, IfSome, IsTrue};
    ghost use Rattle.betting.specs.Accounts.{account};
    ghost use Rattle.course.specs.Course.{all_settled, no_draws_left, rules_of};
    ghost use Rattle.course.specs.Course.Call.{entry, verdict};
    ghost use Rattle.course.specs.Openings.{own_rules};
    ghost use Rattle.walks.specs.Walks.{settled_front};
    ghost use Rattle.calls.specs.Answers.{ConfirmedByRisk, CountsEntries, DrawsWithin, KeptOnRefusal, refusal_in};
    ghost use Rattle.calls.specs.Calls.{answer_as, audit_state, called, Escalated, first_refusal, in_code, reading_of, terms_of};
    ghost use Rattle.calls.specs.declared.answers.Answer.TheVariants as answer;

    /// How many records each call needs: one for each assertion.
    pub fn records_needed(&self) -> usize
        ensures { result ≡ sum (terms_of self.now.terms).assertions }
    {
        self.terms.needed
    }

    /// The first of its own records that wants a draw; none where none does, or the draws are spent.
    fn first_to_draw<A, P: Policy>(&self, own: &[Record<A, P>]) -> Option<usize>
        requires { length own.now ≤ self.now.terms.needed }
        ensures told { let xs = map (account P.state) own.now in result ≡ (if no_draws_left (terms_of self.now.terms) (audit_state self.now xs) then None else Some (settled_front self.now.terms.risk_limit xs)) }
        ensures before { IfSome result (λ first. IsTrue (all_settled self.now.terms.risk_limit (take first (map (account P.state) own.now)))) }
    {
        let terms = &self.terms;
        if self.drawn >= terms.draw_limit {
            return None;
        }
        first_unsettled(own, terms.risk_limit)
    }

    /// Refuses an entry with its first refusal; else answers which record the walk begins with: those
    /// before it are settled.
    fn check_entry<A, P: Policy>(
        &self,
        records: &[Record<A, P>],
        shown: &Reading,
    ) -> Result<usize, Refusal>
        ensures refuses { refusal_in result ≡ first_refusal (terms_of self.now.terms) (length records.now) (audit_state self.now (map (account P.state) records.now)) (entry (reading_of shown.now)) }
        ensures before { IfOk result (λ first. IsTrue (all_settled self.now.terms.risk_limit (take first (audit_state self.now (map (account P.state) records.now)).accounts))) }
    {
        let own = self.terms.own(records)?;
        check_shown(&self.terms, shown)?;
        self.first_to_draw(own).ok_or(Refusal::NoDrawsLeft)
    }

    /// Enters a card that was drawn: each record that isn't settled takes the card's value, 0 for a
    /// missing card, and the draw count grows by one. Too few records are refused first, then a bad
    /// place, found byte or mark, then an entry for which no draw is left; a refusal changes nothing.
    pub fn enter<A: Assorter + Copy, P: Policy + Copy>(
        &mut self,
        records: &mut [Record<A, P>],
        shown: &Reading,
    ) -> Result<(), Refusal>
        ensures course { (audit_state self.new (map (account P.state) records.new), answer_as (λ done. answer.Taken) result) ≡ in_code (called (rules_of A.Assorter P.Policy) (terms_of self.old.terms) (length records.old) (audit_state self.old (map (account P.state) records.old)) (entry (reading_of shown.now))) }
        ensures terms { self.new.terms ≡ self.old.terms }
        ensures beyond { drop self.old.terms.needed records.new ≡ drop self.old.terms.needed records.old }
        ensures kept { (KeptOnRefusal result self.old self.new) × (KeptOnRefusal result records.old records.new) }
    {
        let first = self.check_entry(records, shown)?;
        let terms = &self.terms;
        let own = &mut records[..terms.needed];
        enter_from(own, first, terms.risk_limit, shown.found_card());
        self.drawn += 1;
        Ok(())
    }

    /// What the draws so far say, with the draw count and each contest's risk: confirm where every
    /// record is settled, otherwise a full hand count where the draws are spent, otherwise continue.
    /// Too few records are refused.
    pub fn verdict<A: Assorter, P: Policy>(
        &self,
        records: &[Record<A, P>],
    ) -> Result<Verdict, Refusal>
        ensures course { (audit_state self.now (map (account P.state) records.now), answer_as answer.Finding result) ≡ in_code (called (rules_of A.Assorter P.Policy) (terms_of self.now.terms) (length records.now) (audit_state self.now (map (account P.state) records.now)) verdict) }
        ensures confirms { ConfirmedByRisk self.now.terms.risk_limit result }
        ensures bounded { DrawsWithin self.now.terms.draw_limit result }
        ensures draws { CountsEntries (rules_of A.Assorter P.Policy) (terms_of self.now.terms) (audit_state self.now (map (account P.state) records.now)) result }
    {
        let terms = &self.terms;
        let own = terms.own(records)?;
        let settled = each_settled(own, terms.risk_limit);
        Ok(Verdict {
            finding: found_by(settled, self.drawn == terms.draw_limit),
            draws: self.drawn,
            contests: terms.sizes.len() as u8,
            risks: contest_risks(terms, own),
        })
    }

    /// Turns the audit into a hand count; that is always granted.
    pub fn escalate(self) -> HandCount
        ensures course { Escalated own_rules self result }
        ensures terms { result.terms ≡ self.terms }
    {
        HandCount {
            terms: self.terms,
            drawn: self.drawn,
            counted: 0,
        }
    }
}

/// The finding where all records are settled or not, and the draws are spent or not.
fn found_by(settled: bool, spent: bool) -> Finding
    ensures { result ≡ (if settled then Confirm else (if spent then FullHandCount else Continue)) }
{
    if settled {
        Finding::Confirm
    } else if spent {
        Finding::FullHandCount
    } else {
        Finding::Continue
    }
}
