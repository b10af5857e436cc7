//! Prints what will be audited, from the setup file in the folder that it is run in.
#![tactic(auto)]

mod outline;

use intake::{Memory, read_or_tell, setup_or_tell};
use std::io;

/// Reads the bytes as a setup, and prints its plan or its fault.
fn plan(rt: &HostRuntime, file: &[u8]) -> io::Result<()> {
    let mut memory = Memory::blank();
    let (mut lists, mut planned) = memory.lists();
    let Some(setup) = setup_or_tell(rt, file, &mut lists)? else {
        return Ok(());
    };
    outline::print_terms(rt, &setup, lists.batches.items())?;
    outline::print_contests(rt, &lists, &mut planned)
}

fn main(rt: HostRuntime) -> io::Result<()> {
    match read_or_tell(&rt, "setup.bin")? {
        Some(file) => plan(&rt, file.as_slice()),
        None => Ok(()),
    }
}
