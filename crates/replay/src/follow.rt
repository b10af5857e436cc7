//! One command of a draws file.
ghost use Rattle.std.specs.Prelude.{◌≡◌, ◌≤◌, true, map, length, drop, Some};
ghost use Rattle.betting.specs.Accounts.{account};
ghost use Rattle.calls.specs.Answers.{KeptOnRefusal};
ghost use Rattle.calls.specs.Calls.{count_call, standing_state, standing_terms, terms_of};
ghost use Rattle.course.specs.Course.{rules_of};
ghost use Rattle.format.specs.declared.command.Phase.TheVariants.{Counting, Drawing};
ghost use Rattle.format.specs.Format.{allowed, code, meant};
ghost use Rattle.replay.specs.Following.{Asked, draw_or_escalation, standing_phase, StandsAfter};
ghost use Rattle.replay.specs.Replays.{call_of, phase_after};

use crate::marks::reading;
use assorter::Assorter;
use betting::{Policy, Record};
use calls::{Answer, CountCall, DrawCall, Stage, Standing};
use format::{Command, Phase};
use refusal::Refusal;

/// The phase after a command.
pub(crate) fn phase_after(phase: Phase, command: &Command<'_>) -> Phase
    ensures { result ≡ phase_after phase (meant command.now) }
{
    match command {
        Command::Escalate => Phase::Counting,
        Command::Close => Phase::Closed,
        _ => phase,
    }
}

/// What a command of the drawing asks; an escalation, which is no call of the drawing, gives none.
fn draw_call(command: Command<'_>) -> Option<DrawCall>
    requires order { allowed Drawing (code (meant command)) ≡ true }
    ensures { call_of (meant command.entry) ≡ Some (draw_or_escalation result) }
{
    match command {
        Command::Entry {
            place,
            found,
            marks,
        } => Some(DrawCall::Entry(reading(place, found, marks))),
        Command::Verdict => Some(DrawCall::Verdict),
        Command::Escalate => None,
        // No other command may stand in the drawing.
        _ => unreachable!(),
    }
}

/// What a command of the hand count asks.
fn count_call(command: Command<'_>) -> CountCall
    requires order { allowed Counting (code (meant command)) ≡ true }
    ensures { call_of (meant command.entry) ≡ Some (count_call result) }
{
    match command {
        Command::Count {
            place,
            found,
            marks,
        } => CountCall::Count(reading(place, found, marks)),
        Command::Close => CountCall::Close,
        // No other command may stand in the hand count.
        _ => unreachable!(),
    }
}

/// Where a command leaves an audit, and what it answers.
pub(crate) fn follow<A: Assorter + Copy, P: Policy + Copy>(
    standing: Standing,
    records: &mut [Record<A, P>],
    command: Command<'_>,
) -> (Standing, Result<Answer, Refusal>)
    requires order { allowed (standing_phase standing) (code (meant command)) ≡ true }
    requires room { (standing_terms standing).needed ≤ length records.old }
    ensures course { Asked (rules_of A.Assorter P.Policy) (terms_of (standing_terms standing)) (standing_state standing (map (account P.state) records.old)) (call_of (meant command.entry)) (standing_state result.0 (map (account P.state) records.new), result.1) }
    ensures stands { StandsAfter result.1 (phase_after (standing_phase standing) (meant command.entry)) result.0 }
    ensures terms { standing_terms result.0 ≡ standing_terms standing }
    ensures beyond { drop (standing_terms standing).needed records.new ≡ drop (standing_terms standing).needed records.old }
    ensures kept { (KeptOnRefusal result.1 standing result.0) × (KeptOnRefusal result.1 records.old records.new) }
{
    match standing {
        Standing::Drawing(mut audit) => match draw_call(command) {
            None => (Standing::Counting(audit.escalate()), Ok(Answer::Taken)),
            Some(call) => {
                let answer = audit.answer(records, call);
                (Standing::Drawing(audit), answer)
            }
        },
        Standing::Counting(mut hand) => {
            let answer = hand.answer(records, count_call(command));
            (Standing::Counting(hand), answer)
        }
    }
}
