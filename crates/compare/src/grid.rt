// A floor held cell by cell, with the legal steps and the jumps written out plainly.
// Kept: beside the sources' own steps and jumps, since it is a rule of the project that what checks the answers shares no formula with them.
use crate::extent::Extent;
use floor::Cell;
use std::alloc::{AllocError, Global};

// Kept: headings are numbers here, clockwise from north with the straight ones even: an enum would need each turn written out, and be no plainer.
// A step leads to the row and the column with these added, less one.
const SHIFTS: [(usize, usize); 8] = [
    (0, 1),
    (0, 2),
    (1, 2),
    (2, 2),
    (2, 1),
    (2, 0),
    (1, 0),
    (0, 0),
];

// No floor is longer or wider than this.
const LONGEST: u16 = 128;

pub fn turned(heading: usize, by: usize) -> usize {
    heading.wrapping_add(by) % 8
}

// The cell next to a cell with a heading, if there can be one.
pub fn neighbour(cell: Cell, heading: usize) -> Option<Cell> {
    let (down, right) = SHIFTS[heading % 8];
    let row = cell.row.checked_add(down)?.checked_sub(1)?;
    let col = cell.col.checked_add(right)?.checked_sub(1)?;
    Some(Cell { row, col })
}

#[derive(Clone, Drop)]
pub struct Grid {
    pub size: Extent,
    open: Vec<bool>,
}

impl Grid {
    // With every cell closed.
    pub fn new(heap: Global, size: Extent) -> Result<Grid, AllocError> {
        let open = vec![in heap; false; size.cells()]?;
        Ok(Grid { size, open })
    }

    // Where a cell stands among all cells, row by row; one outside has no place.
    pub fn place(&self, cell: Cell) -> Option<usize> {
        if cell.row < self.size.rows && cell.col < self.size.cols {
            cell.row.checked_mul(self.size.cols)?.checked_add(cell.col)
        } else {
            None
        }
    }

    pub fn is_open(&self, cell: Cell) -> bool {
        self.place(cell)
            .is_some_and(|place| self.open.get(place).copied() == Some(true))
    }

    // Sets a cell, and answers whether that changed it; none is changed outside.
    pub fn mark(&mut self, cell: Cell, open: bool) -> Option<bool> {
        let place = self.place(cell)?;
        let slot = self.open.get_mut(place)?;
        let changed = *slot != open;
        *slot = open;
        Some(changed)
    }

    fn is_open_beside(&self, cell: Cell, heading: usize) -> bool {
        neighbour(cell, heading).is_some_and(|next| self.is_open(next))
    }

    // The cell that a legal step leads to. A diagonal step needs the two cells beside it as well.
    pub fn step(&self, cell: Cell, heading: usize) -> Option<Cell> {
        let next = neighbour(cell, heading)?;
        let free = heading % 2 == 0
            || self.is_open_beside(cell, turned(heading, 1))
                && self.is_open_beside(cell, turned(heading, 7));
        (free && self.is_open(cell) && self.is_open(next)).then_some(next)
    }

    // Whether to this side the way is closed at the first cell and open at the second.
    fn opens_up(&self, from: Cell, to: Cell, side: usize) -> bool {
        !self.is_open_beside(from, side) && self.is_open_beside(to, side)
    }

    // Legal steps up to the first, from a cell to the next, that ends at a stop; the jump is live if one does.
    fn jump_until<F: Fn(Cell, Cell) -> bool>(
        &self,
        from: Cell,
        heading: usize,
        stops: F,
    ) -> (u16, bool)
        requires { F.IsAlwaysCallable stops }
    {
        let mut at = from;
        for steps in 0..LONGEST {
            let Some(next) = self.step(at, heading) else {
                return (steps, false);
            };
            if stops(at, next) {
                return (steps + 1, true);
            }
            at = next;
        }
        (LONGEST, false)
    }

    fn straight_jump(&self, from: Cell, heading: usize) -> (u16, bool) {
        self.jump_until(from, heading, |at, next| {
            self.opens_up(at, next, turned(heading, 2))
                || self.opens_up(at, next, turned(heading, 6))
        })
    }

    fn diagonal_jump(&self, from: Cell, heading: usize) -> (u16, bool) {
        self.jump_until(from, heading, |_, next| {
            self.straight_jump(next, turned(heading, 1)).1
                || self.straight_jump(next, turned(heading, 7)).1
        })
    }

    // Steps, and whether live. A number above 7 is no heading.
    pub fn jump(&self, from: Cell, heading: usize) -> (u16, bool) {
        match heading {
            0 | 2 | 4 | 6 => self.straight_jump(from, heading),
            1 | 3 | 5 | 7 => self.diagonal_jump(from, heading),
            _ => (0, false),
        }
    }
}
