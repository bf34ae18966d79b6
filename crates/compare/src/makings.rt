// Sources made at the edges of the size check, and the planners over them that are asked at every other edge.
use crate::edges::{Edges, put_figures};
use crate::extent::Extent;
use crate::tally::Line;
use crate::words::{Task, Word};
use floor::Cell;
use planner::Planner;
use rate::Rate;
use rates::counter::CounterRate;
use rates::exact::ExactRate;
use source::{JumpSource, SizeRefusal};
use std::alloc::{AllocError, Global};

// Rows, columns, and the number that refuses them however much memory there is.
// Kept: rows and columns as two numbers, a size to a line; as an Extent each would take four lines, and be no plainer.
const SIZES: [(usize, usize, Option<u8>); 13] = [
    (1, 1, None),
    (128, 1, None),
    (1, 128, None),
    (64, 65, None),
    (65, 64, None),
    (128, 128, None),
    (0, 0, Some(10)),
    (0, 1, Some(10)),
    (1, 0, Some(10)),
    (128, 0, Some(10)),
    (129, 1, Some(10)),
    (1, 129, Some(10)),
    (129, 129, Some(10)),
];

// Sizes that are refused, the last one for want of memory.
const REFUSED: [(usize, usize); 4] = [(0, 5), (5, 0), (129, 1), (3, 5)];

const ORIGIN: Cell = Cell { row: 0, col: 0 };

// With just enough memory a size passes; with one word less it is refused by 11, unless it is refused by 10 anyway.
fn check_sizes<W: Word>(line: &mut Line) {
    for (rows, cols, number) in SIZES {
        let size = Extent { rows, cols };
        let needed = W::needed(size);
        let short = needed.saturating_sub(1);
        for (have, due) in [(needed, number), (short, number.or(Some(11)))] {
            line.note(W::check(size, have).err().map(SizeRefusal::number) == due);
        }
    }
}

// Whether a source is the plan of no rows and no columns.
fn is_nothing<S: JumpSource>(source: &mut S) -> bool {
    let size = source.size();
    (size.rows, size.cols) == (0, 0)
        && !source.is_open(ORIGIN)
        && !source.mark(ORIGIN, true)
        && source.jump(ORIGIN, 2) == (0, false)
}

// Expects the plan of no rows and no columns.
#[derive(Drop)]
struct Refused<'a> {
    line: &'a mut Line,
}

impl Task for Refused<'_> {
    fn put<S: JumpSource + Drop>(self, mut source: S) -> Result<(), AllocError> {
        self.line.note(is_nothing(&mut source));
        Ok(())
    }
}

// Where the size check refuses, nothing is made and the memory stays.
fn make_nothing<W: Word>(heap: Global, line: &mut Line) -> Result<(), AllocError> {
    let unused = W::from(77);
    for (rows, cols) in REFUSED {
        let mut memory = vec![in heap; unused; 7]?;
        let refused = Refused { line: &mut *line };
        W::lay(memory.as_mut_slice(), Extent { rows, cols }, refused)?;
        line.note(memory.iter().all(|word| *word == unused));
    }
    Ok(())
}

// Kept: sizes are compared by rows and columns, since a Size of an Extent's numbers comes only with the answer of a size check: no plainer.
fn is_closed<S: JumpSource>(source: &S, size: Extent) -> bool {
    let closed = (0..size.cells()).all(|place| !source.is_open(size.cell_at(place)));
    let told = source.size();
    closed && (told.rows, told.cols) == (size.rows, size.cols)
}

// A new source has every cell closed, and so has a new planner over a source that has not.
#[derive(Drop)]
struct Fresh<'a> {
    size: Extent,
    line: &'a mut Line,
}

impl Task for Fresh<'_> {
    fn put<S: JumpSource + Drop>(self, mut source: S) -> Result<(), AllocError> {
        let Fresh { size, line } = self;
        line.note(is_closed(&source, size));
        for col in 0..size.cols {
            line.note(source.mark(Cell { row: 0, col }, true));
        }
        let planner = Planner::new(source, ExactRate);
        line.note(is_closed(&planner.source, size));
        Ok(())
    }
}

fn make_all_fresh<W: Word>(heap: Global, line: &mut Line) -> Result<(), AllocError> {
    for (rows, cols, number) in SIZES {
        let size = Extent { rows, cols };
        if number.is_none() {
            let mut memory = vec![in heap; W::OPEN; W::needed(size)]?;
            let fresh = Fresh {
                size,
                line: &mut *line,
            };
            W::lay(memory.as_mut_slice(), size, fresh)?;
        }
    }
    Ok(())
}

// A floor of 3 by 3.
fn ask_at_edges<W: Word, R: Rate + Drop>(
    heap: Global,
    rate: R,
    line: &mut Line,
) -> Result<(), AllocError> {
    let size = Extent { rows: 3, cols: 3 };
    let mut memory = vec![in heap; W::from(0); W::needed(size)]?;
    W::lay(memory.as_mut_slice(), size, Edges { heap, rate, line })
}

// Every edge of the source on words of this kind.
fn go_along<W: Word>(heap: Global, line: &mut Line) -> Result<(), AllocError> {
    check_sizes::<W>(line);
    make_nothing::<W>(heap, line)?;
    make_all_fresh::<W>(heap, line)?;
    ask_at_edges::<W, ExactRate>(heap, ExactRate, line)?;
    ask_at_edges::<W, CounterRate>(heap, CounterRate, line)
}

// Every edge, over every source and under every rate.
pub fn go_to_edges(heap: Global, line: &mut Line) -> Result<(), AllocError> {
    go_along::<u8>(heap, line)?;
    go_along::<u64>(heap, line)?;
    go_along::<u16>(heap, line)?;
    put_figures(line);
    Ok(())
}
