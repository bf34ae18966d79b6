// The loop through a list of cells, leg by leg: each cell to the next, and the last back to the panel.
ghost use Rattle.std.specs.Prelude.{◌≡◌, ◌<◌, length, IfErr, slice_index_or};
ghost use Rattle.std.specs.Result.{result_err, result_map_both};
ghost use Rattle.floor.specs.Plans.{legal};
ghost use Rattle.cheapest.specs.Cheapest.{Leg, legs as legs_of};
ghost use Rattle.lengths.specs.Questions.{first_no};
ghost use Rattle.lengths.specs.Lists.{Spared};
ghost use Rattle.planner.specs.Loops.{loop_questions};
ghost use Rattle.planner.specs.Touring.{between, Unsearched, Toured};

use crate::answers::LoopRefusal;
use crate::marking::Planner;
use floor::{Cell, Counts};
use lengths::{Measured, Refusal, measure};
use rate::Rate;
use search::Work;
use source::JumpSource;

// A loop has at least this many cells, and at most so many.
const FEWEST_CELLS: usize = 2;

const MOST_CELLS: usize = 64;

// Puts the questions about a loop that come before its legs; the leg list has this length.
fn check(cells: &[Cell], room: usize) -> Result<(), LoopRefusal>
    ensures { result_err result ≡ first_no (loop_questions cells.now room) }
{
    if cells.len() < FEWEST_CELLS || cells.len() > MOST_CELLS {
        Err(LoopRefusal::CellCount)
    } else if room < cells.len() {
        Err(LoopRefusal::ShortLegs)
    } else {
        Ok(())
    }
}

// The two ends of a leg, counted from 0: the last leads back to the first cell.
fn leg_ends(cells: &[Cell], leg: usize) -> (Cell, Cell)
    requires { leg < length cells.now }
    ensures { (other : Leg) → slice_index_or (legs_of cells.now) leg other ≡ between result.0 result.1 }
{
    (cells[leg], cells[(leg + 1) % cells.len()])
}

// What a loop says of the answer for a leg, counted from 1: the same, but that a refusal names the leg.
fn at_leg(leg: usize, answer: Result<Measured, Refusal>) -> Result<Measured, LoopRefusal>
    ensures { result ≡ result_map_both (λ measured. measured) (λ refusal. LoopRefusal.Leg leg refusal) answer }
{
    answer.map_err(|refusal| LoopRefusal::Leg { leg, refusal })
}

impl<S: JumpSource, R: Rate> Planner<S, R> {
    // The total of the cheapest legs through these cells, the panel first, and the counts of each leg measured. No route for the
    // whole loop is cheaper than that total.
    pub fn tour(
        &self,
        cells: &[Cell],
        work: &mut Work<'_>,
        legs: &mut [Counts],
    ) -> Result<Counts, LoopRefusal>
        ensures told { Toured (R.order self.now.rate) legal (S.meaning self.now.source) cells.now
            (length work.old.entries.now) (length work.old.waiting.now) legs.old legs.new result }
        ensures rest { Spared (S.meaning self.now.source) work.old work.new }
        ensures same { IfErr result (λ e. Unsearched e → work.new ≡ work.old) }
    {
        check(cells, legs.len())?;
        let mut total = Counts::NONE;
        // Kept: the legs of a loop go by an indexed loop over the slice of cells, a rule of the project.
        for i in 0..cells.len() {
            let (from, to) = leg_ends(cells, i);
            let answer = measure(&self.source, &self.rate, from, to, work);
            let measured = at_leg(i + 1, answer)?;
            legs[i] = measured.counts;
            total = total + measured.counts;
        }
        Ok(total)
    }
}
