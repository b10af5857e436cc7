//! Memory for whatever a setup within the limits describes.
ghost use Rattle.std.specs.Prelude.{◌≡◌, []};
ghost use Rattle.bounded.specs.Lists.{held};
ghost use Rattle.setup.specs.Steps.{held_lists};
ghost use Rattle.intake.specs.Memories.{Blank, empty_lists};

use assertion::Planned;
use ballot::{ASSERTIONS, BATCHES, Batch, CONTESTS, Candidate, Contest, Kind};
use bounded::List;
use setup::Lists;

/// The most candidates: each contest has at most 32.
pub const CANDIDATES: usize = 256;

/// As many places as the limits let a setup fill.
#[derive(Drop)]
pub struct Memory {
    pub batches: [Batch; BATCHES],
    pub contests: [Contest; CONTESTS],
    pub candidates: [Candidate; CANDIDATES],
    pub planned: [Planned; ASSERTIONS as usize],
}

impl Memory {
    /// Places that hold nothing yet.
    pub fn blank() -> Memory
        ensures { Blank result }
    {
        let batch = Batch {
            name: [0; 8],
            cards: 0,
        };
        let contest = Contest {
            kind: Kind::Plurality,
            candidates: 0,
            seats: 0,
        };
        let candidate = Candidate {
            name: [0; 8],
            votes: 0,
        };
        Memory {
            batches: [batch; BATCHES],
            contests: [contest; CONTESTS],
            candidates: [candidate; CANDIDATES],
            planned: [Planned::BLANK; ASSERTIONS as usize],
        }
    }

    /// Empty lists over these places: those that a setup is read into, and that of its assertions.
    pub fn lists(&mut self) -> (Lists<'_>, List<'_, Planned>)
        ensures setup { held_lists result.0 ≡ empty_lists self.old }
        ensures planned { held result.1 ≡ record { items = []; memory = self.old.planned } }
    {
        let Memory {
            batches,
            contests,
            candidates,
            planned,
        } = self;
        let lists = Lists {
            batches: List::over(batches),
            contests: List::over(contests),
            candidates: List::over(candidates),
        };
        (lists, List::over(planned))
    }
}
