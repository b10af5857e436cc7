//! Two setup files that can be worked out by hand.
ghost use Rattle.std.specs.Prelude.{◌≡◌};
ghost use Rattle.acceptance.specs.TwoThirds.{answered, at_60, at_61, WorkedTwoThirds};

use ballot::{Batch, Candidate, Contest, Kind};
use bounded::List;
use refusal::Fault;
use setup::{Lists, Setup, read_setup};

/// Reads the setup of 90 cards and a contest for a share of 2/3 between two candidates with these
/// votes.
fn read(first: u8, second: u8) -> Result<Setup, Fault>
    ensures { result ≡ answered first second }
{
    let file = [
        0x01, b'B', b'O', b'X', b'-', b'0', b'0', b'0', b'1', 0, 90, // a batch
        0x02, 0, 50, 0, 80, 1, 0, 0, // terms
        0x03, 3, 2, 1, 0, 2, 0, 3, // the contest
        0x04, b'A', b'D', b'A', b'M', b'S', b' ', b' ', b' ', 0, first, 0x04, b'B', b'A', b'K',
        b'E', b'R', b' ', b' ', b' ', 0, second, 0x05,
    ];
    let mut batches = [Batch {
        name: [0; 8],
        cards: 0,
    }];
    let mut contests = [Contest {
        kind: Kind::Plurality,
        candidates: 0,
        seats: 0,
    }];
    let mut candidates = [Candidate {
        name: [0; 8],
        votes: 0,
    }; 2];
    let mut lists = Lists {
        batches: List::over(&mut batches),
        contests: List::over(&mut contests),
        candidates: List::over(&mut candidates),
    };
    read_setup(&file, &mut lists)
}

/// What the setups come to in which 60 and 61 of 90 votes are reported for a share of 2/3.
pub fn worked_two_thirds() -> (Result<Setup, Fault>, Result<Setup, Fault>)
    ensures refused { result.0 ≡ at_60 }
    ensures accepted { result.1 ≡ at_61 }
    ensures shown { WorkedTwoThirds }
{
    (read(60, 30), read(61, 29))
}
