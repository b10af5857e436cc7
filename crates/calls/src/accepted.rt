//! What an audit opens with.
ghost use Rattle.std.specs.Prelude.{◌≡◌, ◌≤◌, map, length, drop, OnOk};
ghost use Rattle.acceptance.specs.Held.{HoldsSetup};
ghost use Rattle.betting.specs.Accounts.{account};
ghost use Rattle.betting.specs.Policies.{chosen_state};
ghost use Rattle.course.specs.Course.{rules_of};
ghost use Rattle.opening.specs.Starts.{fewer, RefusedUnchanged, start_answer};
ghost use Rattle.calls.specs.Calls.{terms_of};
ghost use Rattle.calls.specs.Openings.{AlwaysPromised, AsPlanned, OfSetup, setup_terms, size_of};

use crate::drawing::Audit;
use crate::terms::{Size, Terms};
use arrayvec::ArrayVec;
use assertion::{Assertion, Planned, list_assertions};
use assorter::Assorter;
use ballot::{ASSERTIONS, CONTESTS, Candidate, Contest};
use betting::{ChosenPolicy, Policy, Record};
use bounded::List;
use opening::start_records;
use refusal::Refusal;
use setup::Setup;

/// An accepted setup, with its lists as read.
#[derive(Clone, Copy)]
pub(crate) struct Accepted<'a> {
    pub(crate) setup: &'a Setup,
    pub(crate) contests: &'a [Contest],
    pub(crate) candidates: &'a [Candidate],
    ghost holds: { ∥ HoldsSetup setup.now contests.now candidates.now ∥₁ },
}

impl Accepted<'_> {
    /// The terms of its audit.
    fn terms(&self) -> Terms
        ensures terms { terms_of result ≡ setup_terms self.now.setup.now self.now.contests.now }
        ensures needed { result.needed ≡ self.now.setup.now.assertions }
    {
        let setup = self.setup;
        Terms {
            cards: setup.cards,
            risk_limit: setup.terms.risk_limit,
            draw_limit: setup.terms.draw_limit,
            sizes: contest_sizes(self.contests),
            needed: setup.assertions as usize,
        }
    }

    /// An audit that has drawn nothing.
    pub(crate) fn begin<A: Assorter, P: Policy>(&self) -> Audit
        ensures terms { OfSetup self.now.setup.now self.now.contests.now result }
        ensures promise { AlwaysPromised (rules_of A.Assorter P.Policy) result }
    {
        Audit {
            terms: self.terms(),
            drawn: 0,
        }
    }

    /// Starts a record for each assertion that the contests make, in order.
    pub(crate) fn start_own(
        &self,
        records: &mut [Record<Assertion, ChosenPolicy>],
    ) -> Result<(), Refusal>
        ensures answer { result ≡ start_answer (fewer self.now.setup.now.assertions records.old) }
        ensures accounts { OnOk result (AsPlanned self.now.setup.now self.now.contests.now self.now.candidates.now (map (account chosen_state) records.new)) }
        ensures beyond { drop self.now.setup.now.assertions records.new ≡ drop self.now.setup.now.assertions records.old }
        ensures refused { RefusedUnchanged result records.old records.new }
    {
        // Fixed memory for the list, since nothing here allocates.
        let mut slots = [Planned::BLANK; ASSERTIONS as usize];
        let mut planned = List::over(&mut slots);
        list_assertions(self.contests, self.candidates, &mut planned)?;
        start_records(planned.items(), self.setup.terms.policy, records)
    }
}

/// The size of each contest.
fn contest_sizes(contests: &[Contest]) -> ArrayVec<Size, CONTESTS>
    requires { length contests.now ≤ 8 }
    ensures { result.items ≡ map size_of contests.now }
{
    let mut sizes = ArrayVec::new();
    for contest in contests {
        sizes.push(Size {
            candidates: contest.candidates,
            assertions: contest.assertion_count(),
        });
    }
    sizes
}
