//! The calls that open an audit.
ghost use Rattle.std.specs.Prelude.{◌≡◌, map, drop, IfOk, OnOk};
ghost use Rattle.refusal.specs.declared.Refusal.TheVariants.{NoSetup};
ghost use Rattle.betting.specs.Accounts.{account};
ghost use Rattle.betting.specs.Policies.{chosen_state};
ghost use Rattle.course.specs.Course.{rules_of};
ghost use Rattle.course.specs.Openings.{own_rules};
ghost use Rattle.opening.specs.Starts.{any_fewer, fewer};
ghost use Rattle.calls.specs.Openings.{Begun, KeepsOthers, Opens, OwnAssertions, StartsWith};

use crate::accepted::Accepted;
use crate::drawing::Audit;
use acceptance::holds_setup;
use assertion::Assertion;
use assorter::Assorter;
use ballot::{Candidate, Contest};
use betting::{ChosenPolicy, Policy, Record};
use opening::start_with;
use refusal::Refusal;
use setup::Setup;

/// A setup that was not opened, and is given back.
#[derive(Drop)]
pub struct NotOpened {
    pub refusal: Refusal,
    pub setup: Setup,
}

/// The refusal of what holds no accepted setup.
fn no_setup(setup: Setup) -> NotOpened
    ensures { result ≡ record { refusal = NoSetup; setup = setup } }
{
    NotOpened {
        refusal: Refusal::NoSetup,
        setup,
    }
}

/// Opens a setup, with its lists as read, to an audit: fills one record for each assertion of the
/// contests, in order. Lists that hold no accepted setup with these numbers are refused first, then
/// too few records; then nothing changes, and the setup is given back.
pub fn open(
    setup: Setup,
    contests: &[Contest],
    candidates: &[Candidate],
    records: &mut [Record<Assertion, ChosenPolicy>],
) -> Result<Audit, NotOpened>
    ensures answer { Opens setup contests.now candidates.now (fewer setup.assertions records.old) result }
    ensures begun { IfOk result (Begun own_rules setup contests.now (map (account chosen_state) records.new)) }
    ensures own { IfOk result (OwnAssertions setup contests.now candidates.now (map (account chosen_state) records.new)) }
    ensures others { KeepsOthers setup.assertions records.old records.new result }
{
    if !holds_setup(&setup, contests, candidates) {
        return Err(no_setup(setup));
    }
    let accepted = Accepted {
        setup: &setup,
        contests,
        candidates,
    };
    if let Err(refusal) = accepted.start_own(records) {
        return Err(NotOpened { refusal, setup });
    }
    Ok(accepted.begin::<Assertion, ChosenPolicy>())
}

/// The same with the caller's own assorters and policies, in assertion order. Too few assorters or
/// policies are refused as too few records are.
// Apart from `open`: the two say different things of the records, which start from the contests'
// own assertions or from what the caller gives.
pub fn open_with<A: Assorter + Copy, P: Policy + Copy>(
    setup: Setup,
    contests: &[Contest],
    candidates: &[Candidate],
    assorters: &[A],
    policies: &[P],
    records: &mut [Record<A, P>],
) -> Result<Audit, NotOpened>
    ensures answer { Opens setup contests.now candidates.now (any_fewer setup.assertions assorters.now policies.now records.old) result }
    ensures begun { IfOk result (Begun (rules_of A.Assorter P.Policy) setup contests.now (map (account P.state) records.new)) }
    ensures accounts { OnOk result (StartsWith setup.assertions assorters.now (map P.state policies.now) (map (account P.state) records.new)) }
    ensures others { KeepsOthers setup.assertions records.old records.new result }
{
    if !holds_setup(&setup, contests, candidates) {
        return Err(no_setup(setup));
    }
    if let Err(refusal) = start_with(setup.assertions as usize, assorters, policies, records) {
        return Err(NotOpened { refusal, setup });
    }
    let accepted = Accepted {
        setup: &setup,
        contests,
        candidates,
    };
    Ok(accepted.begin::<A, P>())
}
