//! The steps of one assertion's money game, a line for each.
use crate::outcome::{Outcome, value_of};
use assertion::{Assertion, Planned};
use betting::{ChosenPolicy, Policy, Record, play, stake};
use opening::first_policy;
use setup::Terms;
use std::io;

/// Plays one outcome, and prints what it did.
fn print_step(
    rt: &HostRuntime,
    held: &mut Record<Assertion, ChosenPolicy>,
    step: usize,
    word: &str,
    risk_limit: u16,
) -> io::Result<()> {
    let Ok(outcome) = word.parse::<Outcome>() else {
        return println!(rt; "{step} {word}: no outcome");
    };
    if held.is_settled(risk_limit) {
        return println!(rt; "{step} {word}: settled");
    }
    let half = held.assorter.half();
    let top = held.assorter.top();
    let value = value_of(outcome, half, top);
    let bet = held.policy.bet();
    let staked = stake(held.wealth, bet);
    play(held, half, value, risk_limit);
    let wealth = held.wealth;
    let peak = held.peak;
    let risk = held.risk();
    println!(rt;
        "{step} {word}: value {value}, bet {bet}, stake {staked}, wealth {wealth}, peak {peak}, risk {risk}"
    )
}

/// The assertion's half, top and first bet, its start, and a line for each outcome.
pub(crate) fn print_steps(
    rt: &HostRuntime,
    number: usize,
    planned: &Planned,
    terms: &Terms,
    outcomes: &str,
) -> io::Result<()> {
    let half = planned.assertion.half();
    let top = planned.assertion.top();
    let first_bet = planned.first_bet;
    println!(rt; "assertion {number}: half {half}, top {top}, first bet {first_bet}")?;
    let mut held = Record::start(planned.assertion, first_policy(planned, terms.policy));
    let wealth = held.wealth;
    let peak = held.peak;
    let risk = held.risk();
    println!(rt; "0 start: wealth {wealth}, peak {peak}, risk {risk}")?;
    for (i, word) in outcomes.split_whitespace().enumerate() {
        let step = i.saturating_add(1);
        print_step(rt, &mut held, step, word, terms.risk_limit)?;
    }
    Ok(())
}
