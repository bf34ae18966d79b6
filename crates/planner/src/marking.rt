// A planner over any source and any rate, and the two calls that change its floor.
ghost use Rattle.std.specs.Prelude.{◌≡◌, ◌<◌, true, false, IfErr};
ghost use Rattle.floor.specs.Plans.{closed};
ghost use Rattle.planner.specs.Loops.{after, mark_answer};
ghost use Rattle.planner.specs.Shutting.{shut_row};

use floor::Cell;
use lengths::Refusal;
use rate::Rate;
use source::JumpSource;

// A planner holds a source and a rate, and nothing else.
#[derive(Drop)]
pub struct Planner<S, R> {
    pub source: S,
    pub rate: R,
}

// Closes the cells of one row.
fn close_row<S: JumpSource>(source: &mut S, row: usize)
    requires { row < (S.meaning source.old).rows }
    ensures plan { S.meaning source.new ≡ shut_row (S.meaning source.old) row (S.meaning source.old).cols }
    ensures kept { S.lent source.old source.new }
{
    for col in 0..source.size().cols {
        let _ = source.mark(Cell { row, col }, false);
    }
}

// Closes every cell.
fn close_all<S: JumpSource>(source: &mut S)
    ensures plan { S.meaning source.new ≡ closed (S.meaning source.old).rows (S.meaning source.old).cols }
    ensures kept { S.lent source.old source.new }
{
    for row in 0..source.size().rows {
        close_row(source, row);
    }
}

// Kept, here and in the crates above: that the rate and the memory stay is one equation, or one word of the source's trait; a definition would only rename it: no plainer.
impl<S: JumpSource, R: Rate> Planner<S, R> {
    // A fresh planner: no cell is open, whatever the source held.
    pub fn new(mut source: S, rate: R) -> Planner<S, R>
        ensures plan { S.meaning result.source ≡ closed (S.meaning source).rows (S.meaning source).cols }
        ensures rate { result.rate ≡ rate }
        ensures kept { S.lent source result.source }
    {
        close_all(&mut source);
        Planner { source, rate }
    }

    // Opens a cell, and answers whether it was closed. A refusal leaves plan, memory and rate as they were.
    pub fn open(&mut self, cell: Cell) -> Result<bool, Refusal>
        ensures told { result ≡ mark_answer (S.meaning self.old.source) cell true }
        ensures plan { S.meaning self.new.source ≡ after (S.meaning self.old.source) cell true }
        ensures refused { IfErr result (λ e. S.intact self.old.source self.new.source) }
        ensures kept { S.lent self.old.source self.new.source }
        ensures rate { self.new.rate ≡ self.old.rate }
    {
        mark(&mut self.source, cell, true)
    }

    // Closes a cell, and answers whether it was open. A refusal leaves plan, memory and rate as they were.
    pub fn close(&mut self, cell: Cell) -> Result<bool, Refusal>
        ensures told { result ≡ mark_answer (S.meaning self.old.source) cell false }
        ensures plan { S.meaning self.new.source ≡ after (S.meaning self.old.source) cell false }
        ensures refused { IfErr result (λ e. S.intact self.old.source self.new.source) }
        ensures kept { S.lent self.old.source self.new.source }
        ensures rate { self.new.rate ≡ self.old.rate }
    {
        mark(&mut self.source, cell, false)
    }
}

// Sets a cell, and answers whether that changed it. It looks before it marks.
fn mark<S: JumpSource>(source: &mut S, cell: Cell, open: bool) -> Result<bool, Refusal>
    ensures told { result ≡ mark_answer (S.meaning source.old) cell «open» }
    ensures plan { S.meaning source.new ≡ after (S.meaning source.old) cell «open» }
    ensures refused { IfErr result (λ e. S.intact source.old source.new) }
    ensures kept { S.lent source.old source.new }
{
    let was_open = source.is_open(cell);
    if source.mark(cell, open) {
        Ok(was_open != open)
    } else {
        Err(Refusal::Outside)
    }
}
