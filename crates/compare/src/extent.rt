// A floor's size, and the cells that it has.
use floor::Cell;

// Kept: beside the sources' own size, since it is a rule of the project that what checks the answers shares no formula with them.
#[derive(Clone, Copy)]
pub struct Extent {
    pub rows: usize,
    pub cols: usize,
}

impl Extent {
    // How many cells it has.
    pub fn cells(self) -> usize {
        self.rows.saturating_mul(self.cols)
    }

    // The cell at a place, counted row by row.
    // Kept: who goes over all cells maps the places to them; an iterator of the cells would take more lines than it would spare, and be no plainer.
    pub fn cell_at(self, place: usize) -> Cell {
        let cols = self.cols.max(1);
        Cell {
            row: place / cols,
            col: place % cols,
        }
    }

    // With the row below and the column beside it, where the cells just outside lie.
    pub fn widened(self) -> Extent {
        Extent {
            rows: self.rows.saturating_add(1),
            cols: self.cols.saturating_add(1),
        }
    }
}
