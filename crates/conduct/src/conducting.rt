//! Whole lists of calls.
ghost use Rattle.std.specs.Prelude.{◌≡◌, ◌+◌, ◌<◌, ◌≤◌, ◌∷◌, map, length, take, drop};
ghost use Rattle.betting.specs.Accounts.{account};
ghost use Rattle.course.specs.Course.{rules_of};
ghost use Rattle.course.specs.Course.Call.{escalation};
ghost use Rattle.course.specs.Laws.{left_by};
ghost use Rattle.course.specs.Promise.{Promised};
ghost use Rattle.calls.specs.Calls.{audit_state, count_call, count_state, terms_of};
ghost use Rattle.conduct.specs.Conducts.{all_calls, answers_by, conduct_refusal, Conducted, Conducts, KeptUnless, not_conducted, StandsBy, StandsIfConducted};

use crate::outcome::NotConducted;
use assorter::Assorter;
use betting::{Policy, Record};
use calls::{Answer, Audit, CountCall, DrawCall, HandCount, Stage, Standing};
use refusal::Refusal;

/// The calls of one stage, with one place for each answer.
fn answer_all<S: Stage, A: Assorter + Copy, P: Policy + Copy>(
    stage: &mut S,
    records: &mut [Record<A, P>],
    calls: &[S::Call],
    answers: &mut [Result<Answer, Refusal>],
)
    requires records { (S.terms stage.old).needed ≤ length records.old }
    requires places { length calls.now ≤ length answers.old }
    ensures answers { take (length calls.now) answers.new ≡ answers_by (rules_of A.Assorter P.Policy) (terms_of (S.terms stage.old)) (S.state _ _ stage.old (map (account P.state) records.old)) (map S.asked calls.now) }
    ensures left { S.state _ _ stage.new (map (account P.state) records.new) ≡ left_by (rules_of A.Assorter P.Policy) (terms_of (S.terms stage.old)) (S.state _ _ stage.old (map (account P.state) records.old)) (map S.asked calls.now) }
    ensures terms { S.terms stage.new ≡ S.terms stage.old }
    ensures beyond { drop (S.terms stage.old).needed records.new ≡ drop (S.terms stage.old).needed records.old }
    ensures places { drop (length calls.now) answers.new ≡ drop (length calls.now) answers.old }
{
    for (i, call) in calls.iter().enumerate() {
        answers[i] = stage.answer(records, *call);
    }
}

/// The escalation and the calls after it, with one place for each answer.
fn escalate_and_tally<A: Assorter + Copy, P: Policy + Copy>(
    audit: Audit,
    records: &mut [Record<A, P>],
    calls: &[CountCall],
    answers: &mut [Result<Answer, Refusal>],
) -> HandCount
    requires records { audit.terms.needed ≤ length records.old }
    requires places { length calls.now < length answers.old }
    ensures answers { take (length calls.now + 1) answers.new ≡ answers_by (rules_of A.Assorter P.Policy) (terms_of audit.terms) (audit_state audit (map (account P.state) records.old)) (escalation ∷ map count_call calls.now) }
    ensures left { count_state result (map (account P.state) records.new) ≡ left_by (rules_of A.Assorter P.Policy) (terms_of audit.terms) (audit_state audit (map (account P.state) records.old)) (escalation ∷ map count_call calls.now) }
    ensures terms { result.terms ≡ audit.terms }
    ensures beyond { drop audit.terms.needed records.new ≡ drop audit.terms.needed records.old }
    ensures places { drop (length calls.now + 1) answers.new ≡ drop (length calls.now + 1) answers.old }
{
    let mut hand = audit.escalate();
    answers[0] = Ok(Answer::Taken);
    answer_all(&mut hand, records, calls, &mut answers[1..]);
    hand
}

/// How many calls there are, the escalation among them.
fn call_count(before: &[DrawCall], later: Option<&[CountCall]>) -> usize
    ensures { result ≡ length (all_calls before.now later.entry) }
{
    before.len() + later.map_or(0, |calls| calls.len() + 1)
}

/// Plays the calls, with a record for each assertion and a place for each answer.
fn play_all<A: Assorter + Copy, P: Policy + Copy>(
    mut audit: Audit,
    records: &mut [Record<A, P>],
    before: &[DrawCall],
    later: Option<&[CountCall]>,
    answers: &mut [Result<Answer, Refusal>],
) -> Standing
    requires records { audit.terms.needed ≤ length records.old }
    requires places { length (all_calls before.now later) ≤ length answers.old }
    ensures stands { StandsBy later.entry result }
    ensures course { Conducted (rules_of A.Assorter P.Policy) audit (map (account P.state) records.old) (all_calls before.now later.entry) result (map (account P.state) records.new) answers.new }
    ensures beyond { drop audit.terms.needed records.new ≡ drop audit.terms.needed records.old }
    ensures places { drop (length (all_calls before.now later.entry)) answers.new ≡ drop (length (all_calls before.now later.entry)) answers.old }
{
    answer_all(&mut audit, records, before, answers);
    match later {
        None => Standing::Drawing(audit),
        Some(calls) => {
            let drawn = before.len();
            let hand = escalate_and_tally(audit, records, calls, &mut answers[drawn..]);
            Standing::Counting(hand)
        }
    }
}

/// Plays a list of entries and verdicts on an audit, then possibly an escalation with counts and
/// closes, and puts every answer, refusals among them, at the front of `answers`. Too few records, or
/// too few places for the answers, are refused before the first call; then nothing changes, and the
/// audit is given back.
pub fn conduct<A: Assorter + Copy, P: Policy + Copy>(
    audit: Audit,
    records: &mut [Record<A, P>],
    before: &[DrawCall],
    later: Option<&[CountCall]>,
    answers: &mut [Result<Answer, Refusal>],
) -> Result<Standing, NotConducted>
    ensures refusal { not_conducted result ≡ conduct_refusal (terms_of audit.terms) (length records.old) (length answers.old) (all_calls before.now later.entry) }
    ensures course { Conducts (rules_of A.Assorter P.Policy) audit (map (account P.state) records.old) (all_calls before.now later.entry) result (map (account P.state) records.new) answers.new }
    ensures stands { StandsIfConducted later.entry result }
    ensures beyond { (drop audit.terms.needed records.new ≡ drop audit.terms.needed records.old) × (drop (length (all_calls before.now later.entry)) answers.new ≡ drop (length (all_calls before.now later.entry)) answers.old) }
    ensures kept { (KeptUnless result records.old records.new) × (KeptUnless result answers.old answers.new) }
    ensures promise { Promised (rules_of A.Assorter P.Policy) (terms_of audit.terms) (audit_state audit (map (account P.state) records.old)) }
{
    if records.len() < audit.records_needed() || answers.len() < call_count(before, later) {
        let refusal = Refusal::NoRoom;
        return Err(NotConducted { refusal, audit });
    }
    Ok(play_all(audit, records, before, later, answers))
}
