//! The audit of two files, for C.
#![tactic(auto)]

ghost use Rattle.std.specs.Prelude.{◌≡◌, length};
ghost use Rattle.report.specs.Lines.{reported};
ghost use Rattle.riszvomaj.specs.Exports.{JudgesSetup, Reports};

use intake::Memory;
use setup::read_setup;
use std::alloc::Global;
use transcript::transcribe;

/// What `riszvomaj_report` answers where there is not enough memory for a report.
pub const NO_MEMORY: usize = usize::MAX;

/// The text to the front of the report, or nothing where it does not fit; how many bytes it has.
fn put(text: &[u8], report: &mut [u8]) -> usize
    ensures answer { result ≡ length text.now }
    ensures report { report.new ≡ reported text.now report.old }
{
    let length = text.len();
    if length <= report.len() {
        report[..length].copy_from_slice(text);
    }
    length
}

/// The report of the audit of a setup file and a draws file, to the front of the memory for it, or
/// nothing where it does not fit; how many bytes it has. Without memory for it, `NO_MEMORY`.
#[unsafe(no_mangle)]
pub extern "C" fn riszvomaj_report(
    alloc: Global,
    setup: &[u8],
    draws: &[u8],
    report: &mut [u8],
) -> usize
    ensures { Reports setup.now draws.now report.old result report.new }
{
    match transcribe(alloc, setup, draws) {
        Ok(text) => put(text.as_slice(), report),
        Err(_) => NO_MEMORY,
    }
}

/// Reads a setup file alone: 0 where it is accepted; otherwise the number of the refusal, and where
/// it is in the file.
#[unsafe(no_mangle)]
pub extern "C" fn riszvomaj_read_setup(setup: &[u8], offset: &mut usize) -> u8
    ensures { JudgesSetup setup.now offset.old result offset.new }
{
    let mut memory = Memory::blank();
    let (mut lists, _) = memory.lists();
    match read_setup(setup, &mut lists) {
        Ok(_) => 0,
        Err(fault) => {
            *offset = fault.offset;
            u8::from(fault.refusal)
        }
    }
}

#[cfg(test)]
mod tests {
    use super::*;

    const EMPTY: &[u8] = b"refused 1 file 1 at 0\n";

    #[test]
    fn a_report_that_fits(rt: HostRuntime) {
        let mut report = [b'.'; 24];
        assert_eq!(rt;
            riszvomaj_report(rt.alloc(), b"", b"", &mut report),
            EMPTY.len()
        );
        assert_eq!(rt; &report[..], b"refused 1 file 1 at 0\n..".as_slice());
    }

    // A box of 100 cards; one seat, ADAMS with 60 votes and BAKER with 40.
    const ONE_CONTEST: &[u8] =
        b"\x01BOX-0001\x00\x64\x02\x00\x32\x01\x90\x01\x00\x00\x03\x01\x02\x01\x00\x00\x00\x00\x04ADAMS   \x00\x3c\x04BAKER   \x00\x28\x05";

    #[test]
    fn a_verdict_and_a_fault(rt: HostRuntime) {
        let mut report = [b'.'; 64];
        // A verdict, and then a count before the escalation.
        let length = riszvomaj_report(rt.alloc(), ONE_CONTEST, b"\x12\x14", &mut report);
        let written = report.get(..length).unwrap_or(&[]);
        assert_eq!(rt;
            written,
            b"contest 1 risk 1000\ndraws 0\ncontinue\nrefused 2 file 2 at 1\n".as_slice()
        );
        let mut offset = 7;
        assert_eq!(rt; riszvomaj_read_setup(ONE_CONTEST, &mut offset), 0);
        assert_eq!(rt; offset, 7);
    }

    #[test]
    fn a_report_that_does_not_fit(rt: HostRuntime) {
        let mut report = [b'.'; 21];
        assert_eq!(rt;
            riszvomaj_report(rt.alloc(), b"", b"", &mut report),
            EMPTY.len()
        );
        assert_eq!(rt; report, [b'.'; 21]);
    }

    #[test]
    fn a_batch_and_no_more(rt: HostRuntime) {
        let mut offset = 7;
        assert_eq!(rt;
            riszvomaj_read_setup(b"\x01BOX-0001\x00\x64", &mut offset),
            1
        );
        assert_eq!(rt; offset, 11);
    }
}
