// Prints how many labels of a table a mark reads and writes while it mends them, on floors of 128 × 128 cells.
#![tactic(auto)]

mod counting;

use counting::{Effort, SIDE, Twin};
use floor::Cell;
use source::JumpSource;
use table::TableSource;

#[cfg(test)]
mod tests;

// Nine numbers for each cell.
const NUMBERS: usize = 147456;

// Over how many marks an average is taken.
const MARKS: u64 = 256;

// Pseudo-random numbers, the same at each run.
// Kept: a generator of its own, since under another the floors, and so the figures printed, would be others.
#[derive(Drop)]
struct Dice {
    state: u32,
}

impl Dice {
    // One of the numbers below `sides`, or 0 if there is none.
    fn roll(&mut self, sides: u32) -> u32 {
        self.state = self.state.wrapping_mul(1664525).wrapping_add(1013904223);
        (self.state >> 8).checked_rem(sides).unwrap_or(0)
    }

    fn cell(&mut self) -> Cell {
        let row = self.roll(128) as usize;
        let col = self.roll(128) as usize;
        Cell { row, col }
    }
}

// Opens all cells but about one in `closed`; where that is 0, all of them.
fn lay_out(floor: &mut TableSource<'_>, dice: &mut Dice, closed: u32) {
    for row in 0..SIDE {
        for col in 0..SIDE {
            floor.mark(Cell { row, col }, closed == 0 || dice.roll(closed) != 0);
        }
    }
}

// Marks cells at random otherwise than they were, and has the twin count along.
fn change_some(floor: &mut TableSource<'_>, dice: &mut Dice, twin: &mut Twin) {
    for _ in 0..MARKS {
        let cell = dice.cell();
        let open = !floor.is_open(cell);
        floor.mark(cell, open);
        twin.mend(&*floor, cell);
    }
}

fn measure(rt: &HostRuntime, closed: u32) -> anyhow::Result<()> {
    let mut memory = [0; NUMBERS];
    let mut floor = TableSource::make(&mut memory, SIDE, SIDE);
    let mut dice = Dice { state: 1 };
    lay_out(&mut floor, &mut dice, closed);
    let mut twin = Twin::of(rt.alloc(), &floor)?;
    change_some(&mut floor, &mut dice, &mut twin);
    let Effort { reads, writes } = twin.effort();
    let reads = reads / MARKS;
    let writes = writes / MARKS;
    let agrees = twin.agrees(&floor);
    println!(rt;
        "one cell in {closed} closed: a mark reads {reads} and writes {writes} of 131072 labels; the copy agrees: {agrees}"
    )?;
    Ok(())
}

fn main(rt: HostRuntime) -> anyhow::Result<()> {
    measure(&rt, 3)?;
    measure(&rt, 10)
}
