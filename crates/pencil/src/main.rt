//! Follows the sums of one assertion, card by card.
//!
//! It reads the setup file in the folder that it is run in, and from its input one line: the number
//! of an assertion, from 1, and then an outcome for each card, `win`, `loss`, `blank` or `missing`.
#![tactic(auto)]

mod outcome;
mod steps;

use assertion::{Planned, list_assertions};
use bounded::List;
use intake::{Memory, read_or_tell, setup_or_tell};
use setup::{Lists, Terms};
use std::io;

/// The assertion that the line begins with, and its outcomes.
fn follow(
    rt: &HostRuntime,
    line: &str,
    terms: &Terms,
    lists: &Lists<'_>,
    planned: &mut List<'_, Planned>,
) -> io::Result<()> {
    let listed = list_assertions(lists.contests.items(), lists.candidates.items(), planned);
    if let Err(refusal) = listed {
        return println!(rt; "{refusal}");
    }
    let line = line.trim();
    let (first, outcomes) = line.split_once(' ').unwrap_or((line, ""));
    let number = first.parse::<usize>().unwrap_or(0);
    let chosen = number.checked_sub(1).and_then(|i| planned.items().get(i));
    match chosen {
        Some(chosen) => steps::print_steps(rt, number, chosen, terms, outcomes),
        None => println!(rt; "no assertion {first}"),
    }
}

/// Reads the bytes as a setup, and follows the line on it.
fn pencil(rt: &HostRuntime, file: &[u8], line: &str) -> io::Result<()> {
    let mut memory = Memory::blank();
    let (mut lists, mut planned) = memory.lists();
    match setup_or_tell(rt, file, &mut lists)? {
        Some(setup) => follow(rt, line, &setup.terms, &lists, &mut planned),
        None => Ok(()),
    }
}

fn main(rt: HostRuntime) -> io::Result<()> {
    let mut line = String::new(rt.alloc());
    rt.read_line(&mut line)?;
    match read_or_tell(&rt, "setup.bin")? {
        Some(file) => pencil(&rt, file.as_slice(), line.as_str()),
        None => Ok(()),
    }
}
