//! Calls as they are written: one to a line, a word and then cells, parted by single spaces.
use crate::CELLS;
use floor::Cell;
use history::{Asks, Call, Rooms};
use std::alloc::{AllocError, AllocFailed, Global};
use std::fmt;
use std::fmt::Display;
use std::num::ParseIntError;

// The full work lists for the floor, an entry for each heading at each cell. A route is lent a corner for each cell too, and a loop
// a leg for each of its cells.
const WORK: Rooms = Rooms {
    entries: 8 * CELLS,
    waiting: 8 * CELLS,
    corners: 0,
    legs: 0,
};

// Lists of no length, for calls that need none.
const NOTHING: Rooms = Rooms {
    entries: 0,
    waiting: 0,
    corners: 0,
    legs: 0,
};

/// A line as a call. It owns the cells of a loop, which the call only borrows.
#[derive(Drop)]
pub enum Line {
    Open(Cell),
    Close(Cell),
    Length(Cell, Cell),
    Route(Cell, Cell),
    Loop(Vec<Cell>),
}

// Why a line is not a call.
#[derive(Clone, Copy)]
pub enum Fault {
    UnknownWord,
    BadNumber,
    CellCount,
    NoMemory,
}

impl From<AllocError> for Fault {
    fn from(_error: AllocError) -> Fault {
        Fault::NoMemory
    }
}

impl<T: Drop> From<AllocFailed<T>> for Fault {
    fn from(_error: AllocFailed<T>) -> Fault {
        Fault::NoMemory
    }
}

impl From<ParseIntError> for Fault {
    fn from(_error: ParseIntError) -> Fault {
        Fault::BadNumber
    }
}

// The first line that is not a call, counted from 1.
#[derive(Clone, Copy)]
pub struct BadLine {
    pub line: usize,
    pub fault: Fault,
}

impl Display for BadLine {
    fn fmt<W: fmt::Write>(&self, f: &mut fmt::Formatter<W>) -> fmt::Result {
        let line = self.line;
        match self.fault {
            Fault::UnknownWord => write!(f, "line {line} does not begin with a call's name"),
            Fault::BadNumber => write!(f, "line {line} has a field that is not a number"),
            Fault::CellCount => write!(
                f,
                "line {line} does not have as many cells as its call takes"
            ),
            Fault::NoMemory => write!(f, "line {line} finds no memory"),
        }
    }
}

// A number is written in digits alone.
fn number(field: &str) -> Result<usize, Fault> {
    if field.starts_with('+') {
        return Err(Fault::BadNumber);
    }
    Ok(field.parse::<usize>()?)
}

fn numbers(heap: Global, text: &str) -> Result<Vec<usize>, Fault> {
    text.split(' ').map(number).try_collect(heap)
}

// Two numbers are the row and the column of a cell.
fn cell_of(pair: &[usize]) -> Result<Cell, Fault> {
    match pair {
        [row, col] => Ok(Cell {
            row: *row,
            col: *col,
        }),
        _ => Err(Fault::CellCount),
    }
}

fn paired(heap: Global, numbers: &[usize]) -> Result<Vec<Cell>, Fault> {
    numbers.chunks(2).map(cell_of).try_collect(heap)
}

fn only(cells: &[Cell]) -> Result<Cell, Fault> {
    match cells {
        [cell] => Ok(*cell),
        _ => Err(Fault::CellCount),
    }
}

fn ends(cells: &[Cell]) -> Result<(Cell, Cell), Fault> {
    match cells {
        [start, target] => Ok((*start, *target)),
        _ => Err(Fault::CellCount),
    }
}

impl Line {
    /// The call, with full lists.
    pub fn call(&self) -> Call<'_> {
        match self {
            Line::Open(cell) => Call {
                asks: Asks::Open(*cell),
                rooms: NOTHING,
            },
            Line::Close(cell) => Call {
                asks: Asks::Close(*cell),
                rooms: NOTHING,
            },
            Line::Length(start, target) => Call {
                asks: Asks::Length {
                    start: *start,
                    target: *target,
                },
                rooms: WORK,
            },
            Line::Route(start, target) => Call {
                asks: Asks::Route {
                    start: *start,
                    target: *target,
                },
                rooms: Rooms {
                    corners: CELLS,
                    ..WORK
                },
            },
            Line::Loop(cells) => Call {
                asks: Asks::Loop(cells.as_slice()),
                rooms: Rooms {
                    legs: cells.len(),
                    ..WORK
                },
            },
        }
    }
}

// The line of this name over these cells.
fn named(word: &str, cells: Vec<Cell>) -> Result<Line, Fault> {
    match word {
        "open" => Ok(Line::Open(only(cells.as_slice())?)),
        "close" => Ok(Line::Close(only(cells.as_slice())?)),
        "length" => {
            let (start, target) = ends(cells.as_slice())?;
            Ok(Line::Length(start, target))
        }
        "route" => {
            let (start, target) = ends(cells.as_slice())?;
            Ok(Line::Route(start, target))
        }
        "loop" => Ok(Line::Loop(cells)),
        _ => Err(Fault::UnknownWord),
    }
}

fn line_of(heap: Global, text: &str) -> Result<Line, Fault> {
    let Some((word, rest)) = text.split_once(' ') else {
        return named(text, Vec::new(heap));
    };
    let numbers = numbers(heap, rest)?;
    named(word, paired(heap, numbers.as_slice())?)
}

fn add(heap: Global, lines: &mut Vec<Line>, text: &str) -> Result<(), Fault> {
    lines.push(line_of(heap, text)?)?;
    Ok(())
}

/// Every line as a call, or the first line that is none.
pub fn read(heap: Global, text: &str) -> Result<Vec<Line>, BadLine> {
    let mut lines = Vec::new(heap);
    for line in text.lines() {
        if let Err(fault) = add(heap, &mut lines, line) {
            return Err(BadLine {
                line: lines.len().saturating_add(1),
                fault,
            });
        }
    }
    Ok(lines)
}
