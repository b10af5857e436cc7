ghost use Rattle.std.specs.Prelude.{◌≡◌, ℕ, ◌<◌, map, length, take, drop};
ghost use Rattle.std.specs.List.{AllZip, range_with_len};
ghost use Rattle.betting.specs.Accounts.{account};
ghost use Rattle.betting.specs.Policies.{chosen_state};
ghost use Rattle.opening.specs.Starts.{after_start, any_fewer, fewer, RefusedUnchanged, start_answer, started, started_plan};

use super::policies::first_policy;
use assertion::{Assertion, Planned};
use betting::{ChosenPolicy, Policy, Record};
use refusal::Refusal;
use setup::PolicyChoice;

/// Starts each record by its index.
#[tactic(auto, using(crate::proofs::Fills::made_more))]
fn start_each<R: Copy, F: Fn(usize) -> R>(records: &mut [R], start: F)
    requires { (i : ℕ) → i < length records.old → F.pre start i }
    ensures { AllZip (F.post start) (range_with_len 0 (length records.old)) records.new }
{
    for (i, held) in records.iter_mut().enumerate() {
        *held = start(i);
    }
}

/// One record for each planned assertion, that has seen no card; too few records are refused, and
/// then nothing changes.
pub fn start_records(
    planned: &[Planned],
    policy: PolicyChoice,
    records: &mut [Record<Assertion, ChosenPolicy>],
) -> Result<(), Refusal>
    ensures answer { result ≡ start_answer (fewer (length planned.now) records.old) }
    ensures accounts { map (account chosen_state) records.new ≡ after_start (fewer (length planned.now) records.old) (length planned.now) (map (started_plan policy) planned.now) (map (account chosen_state) records.old) }
    ensures beyond { drop (length planned.now) records.new ≡ drop (length planned.now) records.old }
    ensures refused { RefusedUnchanged result records.old records.new }
{
    if records.len() < planned.len() {
        return Err(Refusal::NoRoom);
    }
    start_each(&mut records[..planned.len()], |i| {
        let next = &planned[i];
        Record::start(next.assertion, first_policy(next, policy))
    });
    Ok(())
}

/// The same of the caller's own assorters and policies, in assertion order: the first `count` of
/// each. Too few records, assorters or policies are refused, and then nothing changes.
pub fn start_with<A: Copy, P: Policy + Copy>(
    count: usize,
    assorters: &[A],
    policies: &[P],
    records: &mut [Record<A, P>],
) -> Result<(), Refusal>
    ensures answer { result ≡ start_answer (any_fewer count assorters.now policies.now records.old) }
    ensures accounts { map (account P.state) records.new ≡ after_start (any_fewer count assorters.now policies.now records.old) count (take count (started assorters.now (map P.state policies.now))) (map (account P.state) records.old) }
    ensures beyond { drop count records.new ≡ drop count records.old }
    ensures refused { RefusedUnchanged result records.old records.new }
{
    if records.len() < count || assorters.len() < count || policies.len() < count {
        return Err(Refusal::NoRoom);
    }
    start_each(&mut records[..count], |i| {
        Record::start(assorters[i], policies[i])
    });
    Ok(())
}
