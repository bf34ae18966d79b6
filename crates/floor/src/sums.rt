// The counts of one route after another.
ghost use Rattle.std.specs.Prelude.{◌≡◌, ◌+◌, ◌^◌, ◌<◌};
ghost use Rattle.floor.specs.Tally.{plus};

use crate::Counts;
use std::ops::Add;

impl Counts {
    // Of a route that stays on its cell.
    pub const NONE: Counts = Counts {
        straight: 0,
        diagonal: 0,
    };
}

impl Add for Counts {
    type Output = Counts;

    ghost can_add = { λ x y. (x.straight + y.straight < 2 ^ 32) × (x.diagonal + y.diagonal < 2 ^ 32) };

    ghost add_gives = { λ x y z. z ≡ plus x y };

    fn add(self, next: Counts) -> Counts {
        Counts {
            straight: self.straight + next.straight,
            diagonal: self.diagonal + next.diagonal,
        }
    }
}
