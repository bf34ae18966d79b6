// What is asked about a floor at one moment, with the plain answers.
use crate::dice::Dice;
use crate::flood::{Field, flood};
use crate::grid::Grid;
use crate::prices::Price;
use floor::{Cell, Counts};
use std::alloc::{AllocError, Global};
use std::array;

// Of a floor with more cells only a sample is looked at.
const FEW_CELLS: usize = 700;

const SAMPLE: usize = 150;

// The headings, and a number past them.
const HEADINGS: usize = 9;

// A mark, and whether it changes its cell; none of a cell outside.
#[derive(Clone, Copy)]
pub struct Mark {
    pub cell: Cell,
    pub open: bool,
    pub changes: Option<bool>,
}

// A cell, whether it is open, and its jumps.
#[derive(Clone, Copy)]
pub struct View {
    pub cell: Cell,
    pub open: bool,
    pub jumps: [(u16, bool); HEADINGS],
}

// Counts of a cheapest route, or the number of the first question that is answered no.
pub type Reply = Result<Counts, u8>;

#[derive(Clone, Copy)]
pub struct Ask {
    pub start: Cell,
    pub target: Cell,
    pub reply: Reply,
}

// Lengths between two cells each, and the legs of a loop through stations.
#[derive(Drop)]
pub struct Paper {
    pub price: Price,
    pub asks: Vec<Ask>,
    pub stations: Vec<Cell>,
    pub legs: Vec<Ask>,
}

// A floor at a moment: the marks that lead to it from the moment before, and what is asked then.
#[derive(Drop)]
pub struct Moment {
    pub grid: Grid,
    pub marks: Vec<Mark>,
    pub views: Vec<View>,
    pub exact: Paper,
    pub counter: Paper,
}

impl Moment {
    pub fn paper(&self, price: Price) -> &Paper {
        match price {
            Price::Exact => &self.exact,
            Price::Counter => &self.counter,
        }
    }
}

fn look_from(grid: &Grid, cell: Cell) -> View {
    View {
        cell,
        open: grid.is_open(cell),
        jumps: array::from_fn(|heading| grid.jump(cell, heading)),
    }
}

// Every cell and those just outside, or some of them if they are many.
fn views(heap: Global, grid: &Grid, dice: &mut Dice) -> Result<Vec<View>, AllocError> {
    let size = grid.size.widened();
    if grid.size.cells() > FEW_CELLS {
        (0..SAMPLE)
            .map(|_| look_from(grid, dice.cell(size)))
            .collect(heap)
    } else {
        (0..size.cells())
            .map(|place| look_from(grid, size.cell_at(place)))
            .collect(heap)
    }
}

// Mostly an open cell; now and then any, which may lie just outside.
fn pick(grid: &Grid, dice: &mut Dice) -> Cell {
    if dice.chance(8) {
        return dice.cell(grid.size.widened());
    }
    (0..24)
        .map(|_| dice.cell(grid.size))
        .find(|cell| grid.is_open(*cell))
        .unwrap_or_else(|| dice.cell(grid.size))
}

fn picks(
    heap: Global,
    grid: &Grid,
    dice: &mut Dice,
    count: usize,
) -> Result<Vec<Cell>, AllocError> {
    (0..count).map(|_| pick(grid, dice)).collect(heap)
}

// Kept: the planner's questions once more, since it is a rule of the project that what checks the answers shares no formula with them.
fn plain_reply(field: &Field<'_>, start: Cell, target: Cell) -> Reply {
    let grid = field.grid;
    if grid.place(start).is_none() {
        return Err(1);
    }
    if grid.place(target).is_none() {
        return Err(2);
    }
    if !grid.is_open(start) {
        return Err(3);
    }
    if !grid.is_open(target) {
        return Err(4);
    }
    field.counts(target).ok_or(7)
}

fn asked(field: &Field<'_>, start: Cell, target: Cell) -> Ask {
    Ask {
        start,
        target,
        reply: plain_reply(field, start, target),
    }
}

// The way from each station to each target, and from each station to the next, the last back to the first.
fn write_paper(
    heap: Global,
    grid: &Grid,
    price: Price,
    stations: &[Cell],
    targets: &[Cell],
) -> Result<Paper, AllocError> {
    let mut asks = Vec::new(heap);
    let mut legs = Vec::new(heap);
    let nexts = stations.iter().skip(1).chain(stations.first());
    for (station, next) in stations.iter().zip(nexts) {
        let field = flood(heap, grid, price, *station)?;
        for target in targets {
            asks.push(asked(&field, *station, *target))?;
        }
        legs.push(asked(&field, *station, *next))?;
    }
    Ok(Paper {
        price,
        asks,
        stations: stations.to_vec(heap)?,
        legs,
    })
}

// Marks that open each open cell of a floor.
pub fn openings(heap: Global, grid: &Grid) -> Result<Vec<Mark>, AllocError> {
    (0..grid.size.cells())
        .map(|place| grid.size.cell_at(place))
        .filter(|cell| grid.is_open(*cell))
        .map(|cell| Mark {
            cell,
            open: true,
            changes: Some(true),
        })
        .collect(heap)
}

// Marks cells by chance, open or closed, now and then one just outside.
pub fn remark(
    heap: Global,
    grid: &mut Grid,
    dice: &mut Dice,
    count: usize,
) -> Result<Vec<Mark>, AllocError> {
    let size = grid.size.widened();
    (0..count)
        .map(|_| {
            let cell = dice.cell(size);
            let open = dice.chance(50);
            Mark {
                cell,
                open,
                changes: grid.mark(cell, open),
            }
        })
        .collect(heap)
}

// What is asked of a floor as it is now.
pub fn examine(
    heap: Global,
    grid: &Grid,
    dice: &mut Dice,
    marks: Vec<Mark>,
) -> Result<Moment, AllocError> {
    let large = grid.size.cells() > FEW_CELLS;
    let count = if large { 2 } else { 2 + dice.roll(3) };
    let stations = picks(heap, grid, dice, count)?;
    let targets = picks(heap, grid, dice, count)?;
    let views = views(heap, grid, dice)?;
    let write = |price| write_paper(heap, grid, price, stations.as_slice(), targets.as_slice());
    Ok(Moment {
        grid: grid.clone()?,
        marks,
        views,
        exact: write(Price::Exact)?,
        counter: write(Price::Counter)?,
    })
}
