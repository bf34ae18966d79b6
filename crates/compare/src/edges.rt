// Each refusal at its edge: what just passes, and what is refused by which number.
use crate::asking::Desk;
use crate::tally::Line;
use crate::words::Task;
use floor::{Cell, Counts};
use lengths::{Refusal, Room};
use listing::millimetres::{Refusal as FigureRefusal, millimetres};
use planner::Planner;
use rate::Rate;
use source::JumpSource;
use std::alloc::{AllocError, Global};

// On a floor of 3 by 3: the first corner and the next, the middle and the last corner, and two cells just outside.
const FIRST: Cell = Cell { row: 0, col: 0 };

const NEXT: Cell = Cell { row: 0, col: 2 };

const MIDDLE: Cell = Cell { row: 1, col: 1 };

const LAST: Cell = Cell { row: 2, col: 2 };

const BELOW: Cell = Cell { row: 3, col: 0 };

const ASIDE: Cell = Cell { row: 0, col: 3 };

// The cells that part the last corner from the others when they are closed.
const WALL: [Cell; 3] = [MIDDLE, Cell { row: 1, col: 2 }, Cell { row: 2, col: 1 }];

// Two cells of the walled floor, how many entries, waiting places and corners are lent, and the numbers by which a length and a route are refused.
// Kept: fields without names, since the table below shows a case to a line.
#[derive(Clone, Copy)]
struct Case(Cell, Cell, usize, usize, usize, Option<u8>, Option<u8>);

// Where several questions are answered no, the first one's number comes.
const CASES: [Case; 13] = [
    Case(FIRST, NEXT, 72, 72, 9, None, None),
    Case(LAST, LAST, 72, 72, 9, None, None),
    Case(BELOW, NEXT, 72, 72, 9, Some(1), Some(1)),
    Case(ASIDE, BELOW, 0, 0, 0, Some(1), Some(1)),
    Case(FIRST, ASIDE, 72, 72, 9, Some(2), Some(2)),
    Case(MIDDLE, BELOW, 0, 0, 0, Some(2), Some(2)),
    Case(MIDDLE, MIDDLE, 0, 0, 0, Some(3), Some(3)),
    Case(FIRST, MIDDLE, 0, 0, 0, Some(4), Some(4)),
    Case(FIRST, NEXT, 71, 72, 9, Some(5), Some(5)),
    Case(FIRST, LAST, 72, 71, 8, Some(5), Some(5)),
    Case(FIRST, NEXT, 72, 72, 8, None, Some(6)),
    Case(FIRST, LAST, 72, 72, 8, Some(7), Some(6)),
    Case(FIRST, LAST, 72, 72, 9, Some(7), Some(7)),
];

// How many cells a loop has, from the first corner to the next and back again; how many legs and entries are lent; number and leg of the refusal.
// Kept, here and in the two tables below: fields without names, a case to a line; as a struct each would take as many lines as it has fields, and be no plainer.
const LOOPS: [(usize, usize, usize, Option<(u8, usize)>); 10] = [
    (0, 64, 72, Some((8, 0))),
    (1, 64, 72, Some((8, 0))),
    (2, 2, 72, None),
    (64, 64, 72, None),
    (65, 65, 72, Some((8, 0))),
    (65, 64, 72, Some((8, 0))),
    (2, 1, 72, Some((9, 0))),
    (64, 63, 72, Some((9, 0))),
    (64, 63, 71, Some((9, 0))),
    (64, 64, 71, Some((5, 1))),
];

// Loops of three cells, and number and leg of the refusal.
const LEGS: [([Cell; 3], Option<(u8, usize)>); 7] = [
    ([FIRST, NEXT, FIRST], None),
    ([BELOW, FIRST, NEXT], Some((1, 1))),
    ([MIDDLE, FIRST, NEXT], Some((3, 1))),
    ([FIRST, LAST, NEXT], Some((7, 1))),
    ([FIRST, NEXT, ASIDE], Some((2, 2))),
    ([FIRST, NEXT, MIDDLE], Some((4, 2))),
    ([FIRST, FIRST, LAST], Some((7, 2))),
];

// Sides, counts, and the number of the refusal.
const FIGURES: [(u32, u32, u32, Option<u8>); 8] = [
    (1, 0, 0, None),
    (2_000, 1_048_576, 1_048_576, None),
    (0, 1, 1, Some(12)),
    (2_001, 1, 1, Some(12)),
    (0, 1_048_577, 0, Some(12)),
    (1, 1_048_577, 0, Some(13)),
    (2_000, 0, 1_048_577, Some(13)),
    (1_000, 0, 2, None),
];

// Opens every cell of a floor of 3 by 3; the second time this changes nothing.
fn open_square<S: JumpSource, R: Rate>(planner: &mut Planner<S, R>, line: &mut Line) {
    for row in 0..3 {
        for col in 0..3 {
            let cell = Cell { row, col };
            line.note(planner.open(cell) == Ok(true));
            line.note(planner.open(cell) == Ok(false));
        }
    }
    line.note(planner.open(BELOW).map_err(Refusal::number) == Err(1));
    line.note(planner.close(ASIDE).map_err(Refusal::number) == Err(1));
}

// The counts from the first corner to the last.
fn across<S: JumpSource, R: Rate>(
    heap: Global,
    planner: &Planner<S, R>,
) -> Result<Option<Counts>, AllocError> {
    let room = Room {
        entries: 72,
        waiting: 72,
    };
    let mut desk = Desk::new(heap, room, 9, 0)?;
    let answer = planner.length(FIRST, LAST, &mut desk.lists.work());
    Ok(answer.ok().map(|measured| measured.counts))
}

fn put_case<S: JumpSource, R: Rate>(
    heap: Global,
    planner: &Planner<S, R>,
    case: Case,
    line: &mut Line,
) -> Result<(), AllocError> {
    let Case(start, target, entries, waiting, corners, by_length, by_route) = case;
    let room = Room { entries, waiting };
    let mut desk = Desk::new(heap, room, corners, 0)?;
    let length = planner.length(start, target, &mut desk.lists.work());
    let route = planner.route(
        start,
        target,
        &mut desk.lists.work(),
        desk.corners.as_mut_slice(),
    );
    line.note(length.err().map(Refusal::number) == by_length);
    line.note(route.err().map(Refusal::number) == by_route);
    Ok(())
}

// The number and the leg of a loop's refusal.
fn put_round<S: JumpSource, R: Rate>(
    heap: Global,
    planner: &Planner<S, R>,
    cells: &[Cell],
    legs: usize,
    entries: usize,
) -> Result<Option<(u8, usize)>, AllocError> {
    let room = Room {
        entries,
        waiting: 72,
    };
    let mut desk = Desk::new(heap, room, 0, legs)?;
    let answer = planner.tour(cells, &mut desk.lists.work(), desk.legs.as_mut_slice());
    Ok(
        answer
            .err()
            .map(|refusal| (refusal.number(), refusal.leg())),
    )
}

// To and fro between two corners.
fn to_and_fro(heap: Global, count: usize) -> Result<Vec<Cell>, AllocError> {
    (0..count)
        .map(|place| if place % 2 == 0 { FIRST } else { NEXT })
        .collect(heap)
}

fn put_rounds<S: JumpSource, R: Rate>(
    heap: Global,
    planner: &Planner<S, R>,
    line: &mut Line,
) -> Result<(), AllocError> {
    for (count, legs, entries, due) in LOOPS {
        let cells = to_and_fro(heap, count)?;
        line.note(put_round(heap, planner, cells.as_slice(), legs, entries)? == due);
    }
    for (cells, due) in LEGS {
        line.note(put_round(heap, planner, &cells, 3, 72)? == due);
    }
    Ok(())
}

// All the calls of a fresh planner over a floor of 3 by 3.
#[derive(Drop)]
pub struct Edges<'a, R: Rate> {
    pub heap: Global,
    pub rate: R,
    pub line: &'a mut Line,
}

impl<R: Rate + Drop> Task for Edges<'_, R> {
    fn put<S: JumpSource + Drop>(self, source: S) -> Result<(), AllocError> {
        let Edges { heap, rate, line } = self;
        let mut planner = Planner::new(source, rate);
        open_square(&mut planner, line);
        let through = Counts {
            straight: 0,
            diagonal: 2,
        };
        line.note(across(heap, &planner)? == Some(through));
        line.note(planner.close(MIDDLE) == Ok(true));
        let around = Counts {
            straight: 4,
            diagonal: 0,
        };
        line.note(across(heap, &planner)? == Some(around));
        for cell in WALL {
            line.note(planner.close(cell).is_ok());
        }
        for case in CASES {
            put_case(heap, &planner, case, line)?;
        }
        put_rounds(heap, &planner, line)
    }
}

// Two diagonal steps over cells of a metre are 2,829 mm.
pub fn put_figures(line: &mut Line) {
    for (side, straight, diagonal, number) in FIGURES {
        let counts = Counts { straight, diagonal };
        line.note(millimetres(side, counts).err().map(FigureRefusal::number) == number);
    }
    let counts = Counts {
        straight: 0,
        diagonal: 2,
    };
    line.note(matches!(millimetres(1_000, counts), Ok(2_829)));
}
