// What is answered about a cell or two, and the refusals with their numbers.
ghost use Rattle.std.specs.Prelude.{◌≡◌};
ghost use Rattle.lengths.specs.Questions.{number};

use floor::Counts;
use search::Found;

// Why a call about a cell, or about two, is not carried out: the first question that is answered no. Each has its number.
#[derive(Clone, Copy, PartialEq, Eq, Debug)]
pub enum Refusal {
    Outside = 1,
    TargetOutside = 2,
    Closed = 3,
    TargetClosed = 4,
    ShortWork = 5,
    ShortCorners = 6,
    NoRoute = 7,
}

impl Refusal {
    pub fn number(self) -> u8
        ensures { result ≡ number self }
    {
        self as u8
    }
}

// A length: the counts of a cheapest route, and how many places the search finished.
#[derive(Clone, Copy, PartialEq, Eq, Debug)]
pub struct Measured {
    pub counts: Counts,
    pub finished: usize,
}

// What a search found, but for the place.
impl From<Found> for Measured {
    ghost from_gives = { λ found n. (n.counts ≡ found.counts) × (n.finished ≡ found.finished) };

    fn from(found: Found) -> Measured {
        Measured {
            counts: found.counts,
            finished: found.finished,
        }
    }
}

// A route: its length, and how many corners were written.
#[derive(Clone, Copy, PartialEq, Eq, Debug)]
pub struct Drawn {
    pub measured: Measured,
    pub corners: usize,
}
