//! The audit of two files, as the programs print it.
#![tactic(auto)]

use intake::{read_file, tell_too_long};
use std::io;
use std::io::Write;
use transcript::transcribe;

/// Prints the audit of the setup file and the draws file under these paths; both are read before
/// either is judged.
pub fn print_audit_of(rt: &HostRuntime, setup: &str, draws: &str) -> io::Result<()> {
    let setup = read_file(rt, setup)?;
    let draws = read_file(rt, draws)?;
    match (setup, draws) {
        (Some(setup), Some(draws)) => {
            let text = transcribe(rt.alloc(), setup.as_slice(), draws.as_slice())?;
            rt.stdout().write_all(text.as_slice())
        }
        _ => tell_too_long(rt),
    }
}

/// The same of the files in the folder that the program is run in.
pub fn print_audit_here(rt: &HostRuntime) -> io::Result<()> {
    print_audit_of(rt, "setup.bin", "draws.bin")
}
