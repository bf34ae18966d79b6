// Plain lengths: from one cell, step by step, until no cell can be reached at less cost.
use crate::grid::Grid;
use crate::prices::Price;
use crate::steps::{NO_STEPS, both, steps_on};
use floor::{Cell, Counts};
use std::alloc::{AllocError, Global};
use std::collections::VecDeque;

// The cheapest counts found so far for each cell of a floor, and the cells from which to go on.
#[derive(Drop)]
pub struct Field<'a> {
    pub grid: &'a Grid,
    price: Price,
    reached: Vec<Option<Counts>>,
    waiting: VecDeque<Cell>,
}

impl Field<'_> {
    pub fn counts(&self, cell: Cell) -> Option<Counts> {
        let place = self.grid.place(cell)?;
        self.reached.get(place).copied()?
    }

    // Takes counts for a cell if they cost less than what it has.
    fn offer(&mut self, cell: Cell, counts: Counts) -> Result<(), AllocError> {
        let price = self.price;
        let held = self.counts(cell);
        if held.is_some_and(|old| price.cost(old) <= price.cost(counts)) {
            return Ok(());
        }
        if let Some(place) = self.grid.place(cell)
            && let Some(slot) = self.reached.get_mut(place)
        {
            *slot = Some(counts);
        }
        self.waiting.push_back(cell)?;
        Ok(())
    }

    // Offers to each neighbour the way through this cell.
    fn spread(&mut self, cell: Cell) -> Result<(), AllocError> {
        let Some(counts) = self.counts(cell) else {
            return Ok(());
        };
        for heading in 0..8 {
            if let Some(next) = self.grid.step(cell, heading)
                && let Some(longer) = both(counts, steps_on(heading, 1))
            {
                self.offer(next, longer)?;
            }
        }
        Ok(())
    }
}

// The cheapest counts from a cell to every cell. In one pass over what waits each cell is put back at most eight times, and a
// cheapest route has fewer steps than there are cells, so the turns suffice.
pub fn flood(
    heap: Global,
    grid: &Grid,
    price: Price,
    start: Cell,
) -> Result<Field<'_>, AllocError> {
    let cells = grid.size.cells();
    let mut all = Field {
        grid,
        price,
        reached: vec![in heap; None; cells]?,
        waiting: VecDeque::new(heap),
    };
    if grid.is_open(start) {
        all.offer(start, NO_STEPS)?;
    }
    let turns = cells.saturating_mul(cells).saturating_mul(8);
    for _ in 0..turns {
        let Some(cell) = all.waiting.pop_front() else {
            break;
        };
        all.spread(cell)?;
    }
    Ok(all)
}
