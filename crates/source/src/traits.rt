// The four functions that every source has. What each answers is promised by the plan that the source means.
ghost use Rattle.std.specs.Prelude.{◌≡◌, true, false};
ghost use Rattle.floor.specs.Plans.{Plan, Sized, inside, is_open, marked};
ghost use Rattle.floor.specs.Jumps.{jump_of};

use crate::extents::Size;
use floor::Cell;

pub trait JumpSource {
    // The plan that a source means; only `mark` changes it.
    ghost meaning: { Self → Plan };

    ghost sized: { (s : Self) → Sized (meaning s) };

    // That the second stands over the same memory as the first, and that what the memory holds differs at most where the plan lies.
    ghost lent: { Self → Self → Type 0 };

    ghost stays: { (s : Self) → lent s s };

    ghost goes: { (s t u : Self) → lent s t → lent t u → lent s u };

    // That the memory of the second holds what that of the first holds. Each source says itself what its memory is, and its `mark` promises
    // this of a mark outside.
    ghost intact: { Self → Self → Type 0 };

    ghost rests: { (s : Self) → intact s s };

    ghost passes: { (s t u : Self) → intact s t → intact t u → intact s u };

    // Rows and columns.
    fn size(&self) -> Size
        ensures { (result.rows ≡ (meaning self.now).rows) × (result.cols ≡ (meaning self.now).cols) };

    // Whether a cell is open; one outside is not.
    fn is_open(&self, cell: Cell) -> bool
        ensures { result ≡ is_open (meaning self.now) cell };

    // Sets a cell inside open or closed and answers yes. Outside it answers no, and the plan and, as `intact` says, the memory are as before;
    // what else a source holds, as a count of marks, may change.
    fn mark(&mut self, cell: Cell, open: bool) -> bool
        ensures answer { result ≡ inside (meaning self.old) cell }
        ensures within { inside (meaning self.old) cell ≡ true → meaning self.new ≡ marked (meaning self.old) cell «open» }
        ensures outside { inside (meaning self.old) cell ≡ false → meaning self.new ≡ meaning self.old }
        ensures intact { inside (meaning self.old) cell ≡ false → intact self.old self.new }
        ensures kept { lent self.old self.new };

    // The jump from a cell with a heading's number: its steps, and whether it is live.
    // Kept: it is a rule of the project that any number may be asked, and that steps and live are answered as a pair.
    fn jump(&self, cell: Cell, heading: u8) -> (u16, bool)
        ensures { result ≡ jump_of (meaning self.now) cell heading };
}
