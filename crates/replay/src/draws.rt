//! A whole draws file.
ghost use Rattle.std.specs.Prelude.{◌≡◌, ◌≤◌, map, length, take, drop};
ghost use Rattle.betting.specs.Accounts.{account};
ghost use Rattle.calls.specs.Calls.{audit_state, standing_state, standing_terms, terms_of};
ghost use Rattle.course.specs.Course.{rules_of};
ghost use Rattle.course.specs.Promise.{Promised};
ghost use Rattle.format.specs.Counted.{commands_begun};
ghost use Rattle.replay.specs.Following.{stopped_at};
ghost use Rattle.replay.specs.Replays.{HasRoom, Replays, Unread};

use crate::follow::{follow, phase_after};
use assorter::Assorter;
use betting::{Policy, Record};
use calls::{Answer, Audit, Standing};
use format::{Phase, commands_in, next_command};
use refusal::{Fault, File, Refusal};

/// What a draws file brought.
#[derive(Drop)]
pub struct Replayed {
    /// How many commands were accepted; their answers are at the front of the memory for answers.
    pub answered: usize,
    /// The first refusal, if there was one.
    pub fault: Option<Fault>,
    /// Where the accepted commands left the audit.
    pub standing: Standing,
}

/// Stopped by a refusal where the bytes begin that are left of the file.
fn stopped(
    standing: Standing,
    answered: usize,
    file: &[u8],
    rest: &[u8],
    refusal: Refusal,
) -> Replayed
    ensures { result ≡ stopped_at standing answered (length file.now) rest.now refusal }
{
    Replayed {
        answered,
        fault: Some(Fault::at(File::Draws, file, rest, refusal)),
        standing,
    }
}

/// Follows the commands of the file, with memory enough.
fn follow_commands<A: Assorter + Copy, P: Policy + Copy>(
    audit: Audit,
    records: &mut [Record<A, P>],
    file: &[u8],
    answers: &mut [Answer],
) -> Replayed
    requires room { audit.terms.needed ≤ length records.old }
    requires places { commands_begun file.now ≤ length answers.old }
    ensures replays { Replays (rules_of A.Assorter P.Policy) (terms_of audit.terms) (audit_state audit (map (account P.state) records.old)) file.now (take result.answered answers.new) result.fault result.standing (standing_state result.standing (map (account P.state) records.new)) }
    ensures terms { standing_terms result.standing ≡ audit.terms }
    ensures records { drop audit.terms.needed records.new ≡ drop audit.terms.needed records.old }
    ensures answers { drop result.answered answers.new ≡ drop result.answered answers.old }
    ensures within { result.answered ≤ commands_begun file.now }
{
    let mut standing = Standing::Drawing(audit);
    let mut phase = Phase::Drawing;
    let mut rest = file;
    let mut answered = 0;
    'commands: while !rest.is_empty() {
        let (command, after) = match next_command(rest, phase) {
            Ok(taken) => taken,
            Err(refusal) => return stopped(standing, answered, file, rest, refusal),
        };
        let next = phase_after(phase, &command);
        let (stands, answer) = follow(standing, records, command);
        standing = stands;
        match answer {
            Ok(answer) => {
                answers[answered] = answer;
                answered += 1;
                phase = next;
                rest = after;
            }
            Err(refused) => return stopped(standing, answered, file, rest, refused),
        }
    }
    Replayed {
        answered,
        fault: None,
        standing,
    }
}

/// Follows a draws file on an audit, command by command, up to its end or to the first refusal.
/// Before the escalation come entries and verdicts, after it counts and the close, and nothing
/// after an accepted close; the file may end after any command. What was accepted before a refusal
/// stays, and the refused command changes nothing. Fewer records than assertions, or fewer places
/// for answers than commands begin in the file (`commands_in`), are refused at offset 0 before
/// anything is read.
pub fn replay<A: Assorter + Copy, P: Policy + Copy>(
    audit: Audit,
    records: &mut [Record<A, P>],
    file: &[u8],
    answers: &mut [Answer],
) -> Replayed
    ensures replays { HasRoom (terms_of audit.terms) (length records.old) file.now (length answers.old) → Replays (rules_of A.Assorter P.Policy) (terms_of audit.terms) (audit_state audit (map (account P.state) records.old)) file.now (take result.answered answers.new) result.fault result.standing (standing_state result.standing (map (account P.state) records.new)) }
    ensures unread { (HasRoom (terms_of audit.terms) (length records.old) file.now (length answers.old) → ⊥) → Unread audit result.answered result.fault result.standing records.old records.new answers.old answers.new }
    ensures terms { standing_terms result.standing ≡ audit.terms }
    ensures beyond { (drop audit.terms.needed records.new ≡ drop audit.terms.needed records.old) × (drop result.answered answers.new ≡ drop result.answered answers.old) }
    ensures within { result.answered ≤ commands_begun file.now }
    ensures promise { Promised (rules_of A.Assorter P.Policy) (terms_of audit.terms) (audit_state audit (map (account P.state) records.old)) }
{
    if records.len() < audit.records_needed() || answers.len() < commands_in(file) {
        return stopped(Standing::Drawing(audit), 0, file, file, Refusal::NoRoom);
    }
    follow_commands(audit, records, file, answers)
}
