// Why a loop is refused, with its number and its leg.
ghost use Rattle.std.specs.Prelude.{◌≡◌};
ghost use Rattle.planner.specs.Loops.{loop_number, loop_leg};

use lengths::Refusal;

// Why a loop is not measured to its end; legs are counted from 1.
#[derive(Clone, Copy, PartialEq, Eq, Debug)]
pub enum LoopRefusal {
    CellCount,
    ShortLegs,
    Leg { leg: usize, refusal: Refusal },
}

impl LoopRefusal {
    // Kept: the numbers cannot be the variants' own, since one of the variants has a leg and a refusal.
    pub fn number(self) -> u8
        ensures { result ≡ loop_number self }
    {
        match self {
            LoopRefusal::CellCount => 8,
            LoopRefusal::ShortLegs => 9,
            LoopRefusal::Leg { refusal, .. } => refusal.number(),
        }
    }

    // The refused leg, or 0 where none is.
    // Kept: 0 and no Option, since refusals carry the leg as a number, into which an Option would be turned back: no plainer.
    pub fn leg(self) -> usize
        ensures { result ≡ loop_leg self }
    {
        match self {
            LoopRefusal::CellCount | LoopRefusal::ShortLegs => 0,
            LoopRefusal::Leg { leg, .. } => leg,
        }
    }
}
