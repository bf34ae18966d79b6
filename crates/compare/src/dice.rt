// Pseudo-random numbers, the same at each run with one seed.
ghost use Rattle.std.specs.Prelude.{◌<◌};

use crate::extent::Extent;
use floor::Cell;

#[derive(Drop)]
pub struct Dice {
    state: u64,
}

impl Dice {
    // The state must not be 0, where a shift register stays for ever.
    pub fn new(seed: u64) -> Dice {
        Dice { state: seed.max(1) }
    }

    fn next(&mut self) -> u64 {
        let mut state = self.state;
        state ^= state.wrapping_shl(13);
        state ^= state >> 7;
        state ^= state.wrapping_shl(17);
        self.state = state;
        state >> 16
    }

    // One of the numbers below `sides`; there is always one, since 0 sides are taken as 1.
    pub fn roll(&mut self, sides: usize) -> usize
        ensures { 0 < sides → result < sides }
    {
        let sides = sides.max(1);
        (self.next() as usize) % sides
    }

    // True in so many cases of a hundred.
    pub fn chance(&mut self, percent: usize) -> bool {
        self.roll(100) < percent
    }

    // A cell of a floor of this size.
    pub fn cell(&mut self, size: Extent) -> Cell {
        let row = self.roll(size.rows);
        let col = self.roll(size.cols);
        Cell { row, col }
    }
}
