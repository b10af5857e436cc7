//! What the programs share: a file within its limit, memory for what it describes, and the setup
//! that it holds or the line that says why it is refused.
#![tactic(auto)]

ghost use Rattle.std.specs.Prelude.{◌≡◌, ◌≤◌, IfSome, IfOk, vec_len};
ghost use Rattle.std.specs.Result.{result_ok};
ghost use Rattle.setup.specs.Steps.{held_lists, read_by_steps, SameMemory};

mod memory;

pub use memory::{CANDIDATES, Memory};
use setup::{Lists, Setup, read_setup};
use std::fs::File;
use std::io;
use std::io::{ErrorKind, Read};

/// The most bytes that a program reads of a file.
pub const LIMIT: usize = 65_536;

/// The bytes of a file; a missing file is empty, and of one that is too long there are none.
pub fn read_file(rt: &HostRuntime, path: &str) -> io::Result<Option<Vec<u8>>>
    ensures { IfOk result (λ o. IfSome o (λ v. vec_len v ≤ 65536)) }
{
    let mut bytes = Vec::new(rt.alloc());
    match File::open(rt, path) {
        Ok(file) => {
            // One byte more than the limit is enough to see that there are too many.
            file.take(LIMIT as u64 + 1).read_to_end(&mut bytes)?;
        }
        Err(e) if e.kind() == ErrorKind::NotFound => {}
        Err(e) => return Err(e),
    }
    if bytes.len() > LIMIT {
        return Ok(None);
    }
    Ok(Some(bytes))
}

/// The line that is printed where a file is too long.
pub fn tell_too_long(rt: &HostRuntime) -> io::Result<()> {
    println!(rt; "file too long")
}

/// The same as `read_file`; of a file that is too long it prints that, too.
pub fn read_or_tell(rt: &HostRuntime, path: &str) -> io::Result<Option<Vec<u8>>>
    ensures { IfOk result (λ o. IfSome o (λ v. vec_len v ≤ 65536)) }
{
    let file = read_file(rt, path)?;
    if file.is_none() {
        tell_too_long(rt)?;
    }
    Ok(file)
}

/// The setup that these bytes are, read into the lists; where they are refused, the fault is printed.
pub fn setup_or_tell(
    rt: &HostRuntime,
    file: &[u8],
    lists: &mut Lists<'_>,
) -> io::Result<Option<Setup>>
    ensures answer { IfOk result (λ o. o ≡ result_ok (read_by_steps (held_lists lists.old) file.now).answer) }
    ensures holds { held_lists lists.new ≡ (read_by_steps (held_lists lists.old) file.now).lists }
    ensures memory { SameMemory lists.old lists.new }
{
    match read_setup(file, lists) {
        Ok(setup) => Ok(Some(setup)),
        Err(fault) => {
            println!(rt; "{fault}")?;
            Ok(None)
        }
    }
}
