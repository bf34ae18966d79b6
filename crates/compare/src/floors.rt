// Floors of many sizes and kinds, laid out by chance.
ghost use Rattle.std.specs.Prelude.{◌<◌};

use crate::dice::Dice;
use crate::grid::{Grid, neighbour};
use floor::Cell;
use std::fmt;

// Rows and columns. A row or a column of a packed floor is a word up to 64 cells and two words beyond.
// Kept: rows and columns as two numbers, a size to a line; as an Extent each would take four lines, and be no plainer.
pub const SIZES: [(usize, usize); 20] = [
    (1, 1),
    (1, 2),
    (2, 1),
    (2, 2),
    (3, 3),
    (3, 5),
    (7, 4),
    (1, 128),
    (128, 1),
    (11, 13),
    (16, 16),
    (1, 65),
    (64, 3),
    (2, 64),
    (5, 65),
    (23, 31),
    (64, 64),
    (65, 63),
    (40, 128),
    (128, 128),
];

// What a floor looks like.
#[derive(Clone, Copy)]
pub enum Kind {
    Open,
    Closed,
    // So many cells of a hundred are closed.
    Scattered(usize),
    Rooms,
    Corridors,
    Maze,
    // Walls across the whole floor, open at one end in turn: the longest ways.
    Comb,
}

pub const KINDS: [Kind; 11] = [
    Kind::Open,
    Kind::Closed,
    Kind::Scattered(3),
    Kind::Scattered(15),
    Kind::Scattered(30),
    Kind::Scattered(45),
    Kind::Scattered(70),
    Kind::Rooms,
    Kind::Corridors,
    Kind::Maze,
    Kind::Comb,
];

impl fmt::Display for Kind {
    fn fmt<W: fmt::Write>(&self, f: &mut fmt::Formatter<W>) -> fmt::Result {
        let name = match self {
            Kind::Open => "open",
            Kind::Closed => "closed",
            Kind::Scattered(_) => "scattered",
            Kind::Rooms => "rooms",
            Kind::Corridors => "corridors",
            Kind::Maze => "maze",
            Kind::Comb => "comb",
        };
        write!(f, "{name}")
    }
}

impl Kind {
    // Lays out a floor on which every cell is closed.
    // Kept, here, below and in `exam`: floor and dice are two arguments, since nothing holds of the pair and a struct would only be taken apart: no plainer.
    pub fn lay_out(self, grid: &mut Grid, dice: &mut Dice) {
        match self {
            Kind::Open => scatter(grid, dice, 0),
            Kind::Closed => {}
            Kind::Scattered(percent) => scatter(grid, dice, percent),
            Kind::Rooms => {
                let side = 3 + dice.roll(6);
                wall_in(grid, side);
                open_doors(grid, dice, side);
            }
            Kind::Corridors => dig(grid, dice),
            Kind::Maze => carve(grid, dice),
            Kind::Comb => comb(grid),
        }
    }
}

// Marks each cell, open or closed as the rule says.
fn mark_by<F: FnMut(Cell) -> bool>(grid: &mut Grid, mut rule: F)
    requires { F.IsAlwaysCallable rule }
{
    let size = grid.size;
    for place in 0..size.cells() {
        let cell = size.cell_at(place);
        grid.mark(cell, rule(cell));
    }
}

// Opens each cell but so many of a hundred.
fn scatter(grid: &mut Grid, dice: &mut Dice, percent: usize) {
    mark_by(grid, |_| !dice.chance(percent));
}

// Opens all but walls around square rooms.
fn wall_in(grid: &mut Grid, side: usize)
    requires { 0 < side }
{
    mark_by(grid, |cell| cell.row % side != 0 && cell.col % side != 0);
}

// From each post, where walls cross, opens a cell of the wall to the east and one of the wall to the south.
fn open_doors(grid: &mut Grid, dice: &mut Dice, side: usize)
    requires { 0 < side }
{
    let size = grid.size;
    for place in 0..size.cells() {
        let Cell { row, col } = size.cell_at(place);
        if row % side == 0 && col % side == 0 {
            let east = col.saturating_add(dice.roll(side));
            let south = row.saturating_add(dice.roll(side));
            grid.mark(Cell { row, col: east }, true);
            grid.mark(Cell { row: south, col }, true);
        }
    }
}

// Opens cells straight on from one, and answers the last cell opened.
fn dig_on(grid: &mut Grid, from: Cell, heading: usize, steps: usize) -> Cell {
    let mut at = from;
    for _ in 0..steps {
        match neighbour(at, heading) {
            Some(next) if grid.mark(next, true).is_some() => at = next,
            _ => return at,
        }
    }
    at
}

// Corridors, each beginning where the one before it ends.
fn dig(grid: &mut Grid, dice: &mut Dice) {
    let mut at = dice.cell(grid.size);
    for _ in 0..grid.size.cells() / 8 + 1 {
        let heading = 2 * dice.roll(4);
        let steps = dice.roll(24);
        at = dig_on(grid, at, heading, steps);
    }
}

// A walk by chance over every second cell, which opens the way to each cell that it comes to first.
fn carve(grid: &mut Grid, dice: &mut Dice) {
    let mut at = Cell { row: 0, col: 0 };
    grid.mark(at, true);
    for _ in 0..grid.size.cells().saturating_mul(4) {
        let heading = 2 * dice.roll(4);
        let Some(wall) = neighbour(at, heading) else {
            continue;
        };
        let Some(next) = neighbour(wall, heading) else {
            continue;
        };
        if grid.place(next).is_some() {
            if !grid.is_open(next) {
                grid.mark(wall, true);
                grid.mark(next, true);
            }
            at = next;
        }
    }
}

fn comb(grid: &mut Grid) {
    let last = grid.size.rows.saturating_sub(1);
    mark_by(grid, |cell| match cell.col % 4 {
        1 => cell.row == 0,
        3 => cell.row == last,
        _ => true,
    });
}
