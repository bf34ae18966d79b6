// Takes each source, under each rate, through the moments of a floor.
use crate::asking::Asking;
use crate::dice::Dice;
use crate::exam::{Moment, examine, openings, remark};
use crate::extent::Extent;
use crate::floors::Kind;
use crate::grid::Grid;
use crate::prices::Priced;
use crate::tally::Tally;
use crate::words::Word;
use rates::counter::CounterRate;
use rates::exact::ExactRate;
use std::alloc::{AllocError, Global};

// What the memory holds before a source is made in it. One word more is lent than is needed, and has to keep it.
const UNUSED: u8 = 77;

// A source on words of this kind, under one rate.
fn ask<W: Word, R: Priced>(
    heap: Global,
    size: Extent,
    rate: R,
    moments: &[Moment],
    tally: &mut Tally,
) -> Result<(), AllocError> {
    let unused = W::from(UNUSED);
    let mut memory = vec![in heap; unused; W::needed(size).saturating_add(1)]?;
    let asking = Asking {
        heap,
        rate,
        moments,
        tally: &mut *tally,
    };
    W::lay(memory.as_mut_slice(), size, asking)?;
    tally.memory.note(memory.last().copied() == Some(unused));
    Ok(())
}

fn ask_under_both<W: Word>(
    heap: Global,
    size: Extent,
    moments: &[Moment],
    tally: &mut Tally,
) -> Result<(), AllocError> {
    ask::<W, ExactRate>(heap, size, ExactRate, moments, tally)?;
    ask::<W, CounterRate>(heap, size, CounterRate, moments, tally)
}

// A floor as it is laid out, after a few marks, and after many.
fn moments(
    heap: Global,
    size: Extent,
    kind: Kind,
    dice: &mut Dice,
) -> Result<Vec<Moment>, AllocError> {
    let mut grid = Grid::new(heap, size)?;
    kind.lay_out(&mut grid, dice);
    let mut all = Vec::new(heap);
    let marks = openings(heap, &grid)?;
    all.push(examine(heap, &grid, dice, marks)?)?;
    for count in [5, size.cells() / 8 + 9] {
        let marks = remark(heap, &mut grid, dice, count)?;
        all.push(examine(heap, &grid, dice, marks)?)?;
    }
    Ok(all)
}

// A floor of a kind: three sources under two rates.
pub fn visit(
    heap: Global,
    size: Extent,
    kind: Kind,
    dice: &mut Dice,
    tally: &mut Tally,
) -> Result<(), AllocError> {
    let all = moments(heap, size, kind, dice)?;
    let moments = all.as_slice();
    ask_under_both::<u8>(heap, size, moments, tally)?;
    ask_under_both::<u64>(heap, size, moments, tally)?;
    ask_under_both::<u16>(heap, size, moments, tally)
}
