// Memory that a plan was drawn on: what it holds is known again when the source is gone.
ghost use Rattle.table.specs.Layout.{Drawn};

use crate::layout::TableSource;
use floor::Cell;
use source::open_all;

// Draws a new plan with these cells open on the memory, through code that knows the source only by its trait.
// Kept: one function over a trait for sources cannot promise this, since memory lent for the trait's lifetime has no value after the call.
pub fn draw(memory: &mut [u16], rows: usize, cols: usize, cells: &[Cell])
    ensures { Drawn rows cols cells.now memory.old memory.new }
{
    let mut source = TableSource::make(memory, rows, cols);
    open_all(&mut source, cells);
}
