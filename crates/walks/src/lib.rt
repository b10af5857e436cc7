//! Walks over the records of an audit: what an entry and a count do to each, and what all of them tell.
#![tactic(auto)]

ghost use Rattle.std.specs.Prelude.{◌≡◌, ◌≤◌, ◌++◌, map, take, drop, option_copied, IfSome, IsTrue, if◌then◌else◌};
ghost use Rattle.course.specs.Course.{after_count, after_entry, all_above, all_settled, rules_of, worst_risk};
ghost use Rattle.betting.specs.Accounts.{account};
ghost use Rattle.walks.specs.Walks.{as_found, entered, seen, settled_front};

use assorter::Assorter;
use ballot::Card;
use betting::{Policy, Record, play};

/// The place of the first assertion that needs more draws at the risk limit, counted from 0; none
/// where no assertion does.
// Not inlined: in a loop of its own the limit and the count stay in registers, which are scarce where
// a whole draws file is followed.
#[inline(never)]
pub fn first_unsettled<A, P: Policy>(records: &[Record<A, P>], limit: u16) -> Option<usize>
    ensures is { let xs = map (account P.state) records.now in result ≡ (if all_settled limit xs then None else Some (settled_front limit xs)) }
    ensures before { IfSome result (λ first. IsTrue (all_settled limit (take first (map (account P.state) records.now)))) }
{
    records.iter().position(|held| !held.is_settled(limit))
}

/// Whether no assertion needs more draws at the risk limit.
pub fn each_settled<A, P: Policy>(records: &[Record<A, P>], limit: u16) -> bool
    ensures { result ≡ all_settled limit (map (account P.state) records.now) }
{
    records.iter().all(|held| held.is_settled(limit))
}

/// What the card that is shown is worth; a missing card is worth nothing.
fn shown_value<A: Assorter>(assorter: &A, card: Option<&Card>) -> u16
    ensures is { result ≡ seen A.values (option_copied card.entry) assorter.now }
    ensures low { result ≤ 1000 }
{
    card.map_or(0, |card| assorter.value(card))
}

/// A record that isn't settled takes the card that is drawn.
fn enter_one<A: Assorter + Copy, P: Policy + Copy>(
    held: &mut Record<A, P>,
    limit: u16,
    card: Option<&Card>,
)
    ensures moves { account P.state held.new ≡ entered (rules_of A.Assorter P.Policy) limit (as_found (option_copied card.entry)) (account P.state held.old) }
    ensures rules { 10 ≤ limit → account P.state held.new ≡ after_entry (rules_of A.Assorter P.Policy) limit (as_found (option_copied card.entry)) (account P.state held.old) }
{
    // As `play` does, and before it, so that nobody asks what a card is worth to a settled record.
    if held.is_settled(limit) {
        return;
    }
    let value = shown_value(&held.assorter, card);
    let half = held.assorter.half();
    play(held, half, value, limit);
}

/// Each record takes the card that is drawn.
fn enter_each<A: Assorter + Copy, P: Policy + Copy>(
    records: &mut [Record<A, P>],
    limit: u16,
    card: Option<&Card>,
)
    ensures moves { map (account P.state) records.new ≡ map (entered (rules_of A.Assorter P.Policy) limit (as_found (option_copied card.entry))) (map (account P.state) records.old) }
    ensures rules { 10 ≤ limit → map (account P.state) records.new ≡ map (after_entry (rules_of A.Assorter P.Policy) limit (as_found (option_copied card.entry))) (map (account P.state) records.old) }
{
    for held in records {
        enter_one(held, limit, card);
    }
}

/// The records from this place on take the card that is drawn; where those before it are settled, it
/// is what an entry does to all of them. At a risk limit below 10, which no audit has, wealth and
/// peak are cut where a record's end.
pub fn enter_from<A: Assorter + Copy, P: Policy + Copy>(
    records: &mut [Record<A, P>],
    first: usize,
    limit: u16,
    card: Option<&Card>,
)
    ensures moves { let xs = map (account P.state) records.old in map (account P.state) records.new ≡ take first xs ++ map (entered (rules_of A.Assorter P.Policy) limit (as_found (option_copied card.entry))) (drop first xs) }
    ensures rules { let xs = map (account P.state) records.old in 10 ≤ limit → IsTrue (all_settled limit (take first xs)) → map (account P.state) records.new ≡ map (after_entry (rules_of A.Assorter P.Policy) limit (as_found (option_copied card.entry))) xs }
{
    let first = first.min(records.len());
    enter_each(&mut records[first..], limit, card);
}

/// Each record takes the card of the hand count.
pub fn count_each<A: Assorter, P: Policy>(records: &mut [Record<A, P>], card: Option<&Card>)
    ensures { map (account P.state) records.new ≡ map (after_count (rules_of A.Assorter P.Policy) (as_found (option_copied card.entry))) (map (account P.state) records.old) }
{
    for held in records {
        let value = shown_value(&held.assorter, card);
        held.add_to_tally(value);
    }
}

/// The largest risk of the assertions.
pub fn worst_risk<A, P: Policy>(records: &[Record<A, P>]) -> u64
    ensures is { result ≡ worst_risk (map (account P.state) records.now) }
    ensures low { result ≤ 1000 }
{
    records.iter().map(|held| held.risk()).max().unwrap_or(0)
}

/// Whether each assertion's tally is above a half for each of the cards.
pub fn all_above<A: Assorter, P: Policy>(records: &[Record<A, P>], cards: u16) -> bool
    ensures { result ≡ all_above (rules_of A.Assorter P.Policy) cards (map (account P.state) records.now) }
{
    records.iter().all(|held| held.tally > held.assorter.half() as u32 * cards as u32)
}
