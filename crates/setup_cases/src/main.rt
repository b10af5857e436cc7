//! Judges every file that `cases.txt` names, a line for each; `tools/make_cases.py` writes them.
//! Then the example, into lists with just enough places, and with one place too few. Then it prints
//! the audits of the pairs of files that `audits.txt` names, some of them missing or too long, and
//! tries paths that cannot be read.
#![tactic(auto)]

use ballot::{BATCHES, CONTESTS};
use bounded::List;
use intake::{CANDIDATES, Memory, read_file, read_or_tell, setup_or_tell, tell_too_long};
use protocol::print_audit_of;
use setup::Lists;
use std::{fs, io};

/// How many places each list has.
#[derive(Clone, Copy)]
struct Places {
    batches: usize,
    contests: usize,
    candidates: usize,
}

const ENOUGH: Places = Places {
    batches: BATCHES,
    contests: CONTESTS,
    candidates: CANDIDATES,
};

/// What the file is answered, into lists of so many places.
fn judge(rt: &HostRuntime, file: &[u8], places: Places) -> io::Result<()> {
    let mut memory = Memory::blank();
    let mut lists = Lists {
        batches: List::over(&mut memory.batches[0..places.batches.min(BATCHES)]),
        contests: List::over(&mut memory.contests[0..places.contests.min(CONTESTS)]),
        candidates: List::over(&mut memory.candidates[0..places.candidates.min(CANDIDATES)]),
    };
    match setup_or_tell(rt, file, &mut lists)? {
        Some(_) => println!(rt; "accepted"),
        None => Ok(()),
    }
}

/// The file that a line of the table names.
fn judge_line(rt: &HostRuntime, line: &str) -> io::Result<()> {
    let Some((case, _)) = line.split_once('\t') else {
        return println!(rt; "{line}: no case");
    };
    let path = format!(in rt.alloc(); "{case}.bin")?;
    // Read before the case is named: of a file that cannot be read nothing is printed.
    let file = read_file(rt, path.as_str())?;
    print!(rt; "{case}\t")?;
    match file {
        Some(file) => judge(rt, file.as_slice(), ENOUGH),
        None => tell_too_long(rt),
    }
}

/// The example has one batch, one contest and two candidates.
fn judge_short(rt: &HostRuntime, file: &[u8]) -> io::Result<()> {
    let just = Places {
        batches: 1,
        contests: 1,
        candidates: 2,
    };
    print!(rt; "just enough\t")?;
    judge(rt, file, just)?;
    print!(rt; "no place for the batch\t")?;
    judge(rt, file, Places { batches: 0, ..just })?;
    print!(rt; "no place for the contest\t")?;
    let no_contests = Places {
        contests: 0,
        ..just
    };
    judge(rt, file, no_contests)?;
    print!(rt; "no place for the second candidate\t")?;
    let one_candidate = Places {
        candidates: 1,
        ..just
    };
    judge(rt, file, one_candidate)
}

/// Whether the path is read: a folder, and a path through a file, cannot be.
fn try_path(rt: &HostRuntime, path: &str) -> io::Result<()> {
    match read_file(rt, path) {
        Ok(_) => println!(rt; "{path}: read"),
        Err(_) => println!(rt; "{path}: cannot be read"),
    }
}

/// The audit of the setup and the draws that a line names.
fn audit_line(rt: &HostRuntime, line: &str) -> io::Result<()> {
    let Some((setup, draws)) = line.split_once('\t') else {
        return println!(rt; "{line}: no pair");
    };
    println!(rt; "{setup} with {draws}")?;
    let setup_path = format!(in rt.alloc(); "{setup}.bin")?;
    let draws_path = format!(in rt.alloc(); "{draws}.bin")?;
    print_audit_of(rt, setup_path.as_str(), draws_path.as_str())
}

fn main(rt: HostRuntime) -> io::Result<()> {
    let table = fs::read_to_string(&rt, "cases.txt")?;
    for line in table.lines() {
        judge_line(&rt, line)?;
    }
    if let Some(file) = read_or_tell(&rt, "example.bin")? {
        judge_short(&rt, file.as_slice())?;
    }
    let pairs = fs::read_to_string(&rt, "audits.txt")?;
    for line in pairs.lines() {
        audit_line(&rt, line)?;
    }
    try_path(&rt, ".")?;
    try_path(&rt, "example.bin/setup.bin")
}
