//! The audit of two files.
ghost use Rattle.std.specs.Prelude.{IfOk};
ghost use Rattle.acceptance.specs.Held.{HoldsSetup};
ghost use Rattle.setup.specs.Steps.{held_lists};
ghost use Rattle.transcript.specs.Transcripts.{Tells, TextOf};

use crate::lines::transcript;
use crate::memory::blank_records;
use calls::{Answer, open};
use format::commands_in;
use intake::Memory;
use replay::replay;
use setup::{Lists, Setup, read_setup};
use std::alloc::{AllocError, Global};

/// Opens an accepted setup, and follows the draws file.
fn follow(
    alloc: Global,
    setup: Setup,
    lists: &Lists<'_>,
    draws: &[u8],
) -> Result<Vec<u8>, AllocError>
    requires { HoldsSetup setup (held_lists lists.now).contests.items (held_lists lists.now).candidates.items }
    ensures { IfOk result (λ v. TextOf setup (held_lists lists.now).contests.items (held_lists lists.now).candidates.items draws.now v.items) }
{
    let contests = lists.contests.items();
    let candidates = lists.candidates.items();
    let mut records = blank_records();
    let audit = match open(setup, contests, candidates, &mut records) {
        Ok(audit) => audit,
        // A setup that was read is one that is held, and there is a record for each assertion.
        Err(_) => unreachable!(),
    };
    let mut answers = vec![in alloc; Answer::Taken; commands_in(draws)]?;
    let places = answers.as_mut_slice();
    let replayed = replay(audit, &mut records, draws, places);
    transcript(alloc, &places[..replayed.answered], replayed.fault)
}

/// The text of the audit of a setup file and a draws file: what the calls answered, in their order,
/// and the fault where it stopped. Without memory for it there is none.
pub fn transcribe(alloc: Global, setup: &[u8], draws: &[u8]) -> Result<Vec<u8>, AllocError>
    ensures { IfOk result (λ v. Tells setup.now draws.now v.items) }
{
    let mut memory = Memory::blank();
    let (mut lists, _) = memory.lists();
    match read_setup(setup, &mut lists) {
        Ok(setup) => follow(alloc, setup, &lists, draws),
        Err(fault) => transcript(alloc, &[], Some(fault)),
    }
}
