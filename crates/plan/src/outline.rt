//! The lines of a plan.
use assertion::{Assertion, Pair, Planned, Share, list_assertions};
use ballot::{Batch, Candidate, Contest, all_votes};
use bounded::List;
use names::{KindName, Many, Name, PolicyName};
use setup::{Lists, Setup};
use std::io;

/// The manifest, with the places of the cards of each batch, and the terms.
pub(crate) fn print_terms(rt: &HostRuntime, setup: &Setup, batches: &[Batch]) -> io::Result<()> {
    let cards = Many(setup.cards as usize, "card", "cards");
    let count = Many(setup.batches, "batch", "batches");
    println!(rt; "{cards} in {count}")?;
    // A line needs the cards before its batch, so the sum grows from line to line.
    let mut before: u32 = 0;
    for batch in batches {
        let name = Name(batch.name);
        let first = before.saturating_add(1);
        before = before.saturating_add(u32::from(batch.cards));
        println!(rt; "  {name}: places {first} to {before}")?;
    }
    let terms = setup.terms;
    let risk_limit = terms.risk_limit;
    let draw_limit = terms.draw_limit;
    println!(rt; "risk limit {risk_limit} thousandths")?;
    println!(rt; "draw limit {draw_limit}")?;
    let policy = PolicyName(terms.policy);
    println!(rt; "policy {policy}")
}

/// The winners of a contest, with their reported votes.
fn print_winners(rt: &HostRuntime, contest: &Contest, candidates: &[Candidate]) -> io::Result<()> {
    for (i, candidate) in candidates.iter().enumerate() {
        if contest.wins(candidates, i) {
            let name = Name(candidate.name);
            let votes = Many(candidate.votes as usize, "vote", "votes");
            println!(rt; "  winner {name} with {votes}")?;
        }
    }
    Ok(())
}

/// A candidate's name and votes.
fn print_candidate(rt: &HostRuntime, candidates: &[Candidate], i: u8) -> io::Result<()> {
    if let Some(candidate) = candidates.get(i as usize) {
        let name = Name(candidate.name);
        let votes = candidate.votes;
        print!(rt; "{name} {votes}")?;
    }
    Ok(())
}

fn print_pair(rt: &HostRuntime, pair: &Pair, candidates: &[Candidate]) -> io::Result<()> {
    print_candidate(rt, candidates, pair.winner)?;
    print!(rt; " over ")?;
    print_candidate(rt, candidates, pair.loser)
}

fn print_share(rt: &HostRuntime, share: &Share, candidates: &[Candidate]) -> io::Result<()> {
    print_candidate(rt, candidates, share.winner)?;
    let all = all_votes(candidates);
    let p = share.p;
    let q = share.q;
    print!(rt; " of {all} over {p}/{q}")
}

/// The assertions of contest `number`, counted from 0, each under its number in the audit.
// The number and the contest's own candidates, here and below: they only meet to be printed.
fn print_assertions(
    rt: &HostRuntime,
    number: usize,
    candidates: &[Candidate],
    planned: &[Planned],
) -> io::Result<()> {
    for (i, item) in planned.iter().enumerate() {
        let contest = match item.assertion {
            Assertion::Pair(pair) => pair.contest,
            Assertion::Share(share) => share.contest,
        };
        if contest as usize == number {
            let place = i.saturating_add(1);
            print!(rt; "  assertion {place}: ")?;
            match item.assertion {
                Assertion::Pair(pair) => print_pair(rt, &pair, candidates)?,
                Assertion::Share(share) => print_share(rt, &share, candidates)?,
            }
            let half = item.assertion.half();
            let top = item.assertion.top();
            let bet = item.first_bet;
            println!(rt; ", half {half}, top {top}, first bet {bet}")?;
        }
    }
    Ok(())
}

/// One contest: what it is, who is reported to have won, and what will be tested.
fn print_contest(
    rt: &HostRuntime,
    number: usize,
    contest: &Contest,
    candidates: &[Candidate],
    planned: &[Planned],
) -> io::Result<()> {
    let shown = number.saturating_add(1);
    let kind = KindName(contest.kind);
    let seats = Many(contest.seats as usize, "seat", "seats");
    let count = Many(candidates.len(), "candidate", "candidates");
    println!(rt; "contest {shown}: {kind}, {seats}, {count}")?;
    print_winners(rt, contest, candidates)?;
    print_assertions(rt, number, candidates, planned)
}

/// Every contest, with its candidates from the front of those that the contests before it left.
// `each_slate` only tests; here each contest is printed.
pub(crate) fn print_contests(
    rt: &HostRuntime,
    lists: &Lists<'_>,
    planned: &mut List<'_, Planned>,
) -> io::Result<()> {
    let contests = lists.contests.items();
    let mut left = lists.candidates.items();
    if let Err(refusal) = list_assertions(contests, left, planned) {
        return println!(rt; "{refusal}");
    }
    for (number, contest) in contests.iter().enumerate() {
        let c = (contest.candidates as usize).min(left.len());
        let (own, rest) = left.split_at(c);
        print_contest(rt, number, contest, own, planned.items())?;
        left = rest;
    }
    Ok(())
}
