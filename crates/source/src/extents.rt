// The size of a plan, and the cells inside.
ghost use Rattle.std.specs.Prelude.{◌≡◌, ◌*◌, ◌<◌, ◌&&◌, IfSome, nat_lt};
ghost use Rattle.source.specs.Few.{Few};
ghost use Rattle.source.specs.Indices.{index_in, ItsOwn, NoneLeftOut};

use floor::Cell;

// The size of a plan: 1 to 128 rows and columns, or none of either.
#[derive(Clone, Copy, PartialEq, Eq, Debug)]
pub struct Size {
    pub rows: usize,
    pub cols: usize,
    ghost few: { Few rows cols },
}

impl Size {
    // Of the plan that is made where the size check refuses.
    pub const NONE: Size = Size { rows: 0, cols: 0 };

    pub fn cells(self) -> usize
        ensures { result ≡ self.rows * self.cols }
    {
        self.rows * self.cols
    }

    // Whether a cell lies in a plan of this size.
    pub fn holds(self, cell: Cell) -> bool
        ensures { result ≡ (nat_lt cell.row self.rows && nat_lt cell.col self.cols) }
    {
        cell.row < self.rows && cell.col < self.cols
    }

    // Where a cell inside stands among all cells, row by row: no two cells have one index, and no index is left out.
    pub fn index_of(self, cell: Cell) -> Option<usize>
        ensures at { result ≡ index_in self.rows self.cols cell }
        ensures within { IfSome result (λ i. i < self.rows * self.cols) }
        ensures own { ItsOwn self.rows self.cols cell result }
        ensures all { NoneLeftOut self.rows self.cols }
    {
        if self.holds(cell) {
            Some(cell.row * self.cols + cell.col)
        } else {
            None
        }
    }
}
