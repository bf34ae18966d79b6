// Routes by their corners, walked step by step.
use crate::grid::Grid;
use crate::steps::{NO_STEPS, both, steps_on};
use floor::{Cell, Counts};
use std::cmp::Ordering;

// The heading from a cell to another and the number of steps, if the two lie on one line.
fn line_between(from: Cell, to: Cell) -> Option<(usize, usize)> {
    let heading = match (to.row.cmp(&from.row), to.col.cmp(&from.col)) {
        (Ordering::Less, Ordering::Equal) => 0,
        (Ordering::Less, Ordering::Greater) => 1,
        (Ordering::Equal, Ordering::Greater) => 2,
        (Ordering::Greater, Ordering::Greater) => 3,
        (Ordering::Greater, Ordering::Equal) => 4,
        (Ordering::Greater, Ordering::Less) => 5,
        (Ordering::Equal, Ordering::Less) => 6,
        (Ordering::Less, Ordering::Less) => 7,
        (Ordering::Equal, Ordering::Equal) => return None,
    };
    let down = from.row.abs_diff(to.row);
    let across = from.col.abs_diff(to.col);
    if heading % 2 == 1 && down != across {
        return None;
    }
    Some((heading, down.max(across)))
}

// Where so many legal steps lead.
fn stride(grid: &Grid, from: Cell, heading: usize, steps: usize) -> Option<Cell> {
    (0..steps).try_fold(from, |at, _| grid.step(at, heading))
}

// The counts of the route with these corners, if it is legal and turns at each corner between its ends.
pub fn walk(grid: &Grid, corners: &[Cell]) -> Option<Counts> {
    let [first, rest @ ..] = corners else {
        return None;
    };
    let mut at = *first;
    let mut before = None;
    let mut counts = NO_STEPS;
    for corner in rest {
        let (heading, steps) = line_between(at, *corner)?;
        if before == Some(heading) {
            return None;
        }
        at = stride(grid, at, heading, steps)?;
        counts = both(counts, steps_on(heading, u32::try_from(steps).ok()?))?;
        before = Some(heading);
    }
    grid.is_open(at).then_some(counts)
}
