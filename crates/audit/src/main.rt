//! Prints the audit of setup.bin and draws.bin in the folder that it is run in.
#![tactic(auto)]

use protocol::print_audit_here;
use std::io;

fn main(rt: HostRuntime) -> io::Result<()> {
    print_audit_here(&rt)
}
