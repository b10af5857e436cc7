//! What the records tell of each contest.
ghost use Rattle.std.specs.Prelude.{◌≡◌, ◌≤◌, false, map, length, take, drop};
ghost use Rattle.std.specs.Fn.{FnReturnsAt};
ghost use Rattle.std.specs.List.{AllZip};
ghost use Rattle.betting.specs.Accounts.{account};
ghost use Rattle.course.specs.Course.{all_above, parts, rules_of, worst_risk};
ghost use Rattle.verdict.specs.Contests.{padded};
ghost use Rattle.calls.specs.Calls.{terms_of};

use super::{Size, Terms};
use assorter::Assorter;
use ballot::CONTESTS;
use betting::{Policy, Record};
use walks::{all_above, worst_risk};

/// Puts what is told of each contest's part of the records at the contest's place.
fn tell_each<R, T: Copy, F: Fn(&[R]) -> T>(sizes: &[Size], records: &[R], places: &mut [T], tell: F)
    requires tells { F.IsAlwaysCallable tell }
    requires room { length sizes.now ≤ length places.old }
    ensures parts { AllZip (FnReturnsAt F.Fn tell) (parts (map (λ x. x.assertions) sizes.now) records.now) (take (length sizes.now) places.new) }
    ensures rest { drop (length sizes.now) places.new ≡ drop (length sizes.now) places.old }
{
    let mut rest = records;
    for (i, size) in sizes.iter().enumerate() {
        let count = (size.assertions as usize).min(rest.len());
        let (part, later) = rest.split_at(count);
        places[i] = tell(part);
        rest = later;
    }
}

/// Each contest's largest risk; past the contests there are zeros.
pub(crate) fn contest_risks<A, P: Policy>(
    terms: &Terms,
    records: &[Record<A, P>],
) -> [u16; CONTESTS]
    ensures { result ≡ padded 0 (map worst_risk (parts (terms_of terms.now).assertions (map (account P.state) records.now))) }
{
    // An array, as a verdict has it.
    let mut risks = [0; CONTESTS];
    tell_each(
        &terms.sizes,
        records,
        &mut risks,
        |part| worst_risk(part) as u16,
    );
    risks
}

/// Whether the tallies of all of a contest's assertions are above a half, for each contest; past
/// the contests there is no.
pub(crate) fn contests_above<A: Assorter, P: Policy>(
    terms: &Terms,
    records: &[Record<A, P>],
) -> [bool; CONTESTS]
    ensures { result ≡ padded false (map (all_above (rules_of A.Assorter P.Policy) terms.now.cards) (parts (terms_of terms.now).assertions (map (account P.state) records.now))) }
{
    // An array, as a closing has it.
    let mut above = [false; CONTESTS];
    let cards = terms.cards;
    tell_each(
        &terms.sizes,
        records,
        &mut above,
        |part| all_above(part, cards),
    );
    above
}
