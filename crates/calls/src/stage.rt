//! The stages of an audit, and one call of each.
ghost use Rattle.std.specs.Prelude.{◌≡◌, List, map, length, drop};
ghost use Rattle.betting.specs.Accounts.{Account, account};
ghost use Rattle.course.specs.Course as course;
ghost use Rattle.course.specs.Course.{rules_of, State};
ghost use Rattle.calls.specs.declared.terms.Terms.{Terms};
ghost use Rattle.calls.specs.Answers.{KeptOnRefusal};
ghost use Rattle.calls.specs.Calls.{audit_state, called, count_call, count_state, draw_call, in_code, terms_of};

use crate::answers::{Answer, CountCall, DrawCall};
use crate::counting::HandCount;
use crate::drawing::Audit;
use assorter::Assorter;
use betting::{Policy, Record};
use refusal::Refusal;

/// An audit at a stage, with the calls that it answers there.
pub trait Stage {
    type Call: Copy;

    ghost terms: { Self → Terms };

    /// Where it stands, by the accounts of the records that are lent to it.
    ghost state: { (A S : Type 0) → Self → List (Account A S) → State A S };

    ghost asked: { Self.Call → course.Call };

    /// What one call answers; a refusal changes nothing.
    fn answer<A: Assorter + Copy, P: Policy + Copy>(
        &mut self,
        records: &mut [Record<A, P>],
        call: Self::Call,
    ) -> Result<Answer, Refusal>
        ensures course { (state _ _ self.new (map (account P.state) records.new), result) ≡ in_code (called (rules_of A.Assorter P.Policy) (terms_of (terms self.old)) (length records.old) (state _ _ self.old (map (account P.state) records.old)) (asked call)) }
        ensures terms { terms self.new ≡ terms self.old }
        ensures beyond { drop (terms self.old).needed records.new ≡ drop (terms self.old).needed records.old }
        ensures kept { (KeptOnRefusal result self.old self.new) × (KeptOnRefusal result records.old records.new) };
}

impl Stage for Audit {
    type Call = DrawCall;

    ghost terms = { λ a. a.terms };

    ghost state = { λ A S a xs. audit_state a xs };

    ghost asked = { draw_call };

    fn answer<A: Assorter + Copy, P: Policy + Copy>(
        &mut self,
        records: &mut [Record<A, P>],
        call: DrawCall,
    ) -> Result<Answer, Refusal> {
        match call {
            DrawCall::Entry(shown) => self.enter(records, &shown).map(|()| Answer::Taken),
            DrawCall::Verdict => self.verdict(records).map(Answer::Finding),
        }
    }
}

impl Stage for HandCount {
    type Call = CountCall;

    ghost terms = { λ h. h.terms };

    ghost state = { λ A S h xs. count_state h xs };

    ghost asked = { count_call };

    fn answer<A: Assorter + Copy, P: Policy + Copy>(
        &mut self,
        records: &mut [Record<A, P>],
        call: CountCall,
    ) -> Result<Answer, Refusal> {
        match call {
            CountCall::Count(shown) => self.count(records, &shown).map(|()| Answer::Taken),
            CountCall::Close => self.close(records).map(Answer::Upheld),
        }
    }
}
