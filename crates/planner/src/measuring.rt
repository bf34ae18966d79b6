// The length of a cheapest route between two cells of a planner's floor.
ghost use Rattle.std.specs.Prelude.{length};
ghost use Rattle.floor.specs.Plans.{legal};
ghost use Rattle.lengths.specs.Answers.{costs, LengthTold};
ghost use Rattle.lengths.specs.Lists.{Spared, Untouched};
ghost use Rattle.lengths.specs.Searched.{LeftSearched};

use crate::marking::Planner;
use floor::Cell;
use lengths::{Measured, Refusal, measure};
use rate::Rate;
use search::Work;
use source::JumpSource;

impl<S: JumpSource, R: Rate> Planner<S, R> {
    // The counts of a cheapest route, and how many places the search for it finished.
    pub fn length(
        &self,
        start: Cell,
        target: Cell,
        work: &mut Work<'_>,
    ) -> Result<Measured, Refusal>
        ensures told { LengthTold (R.order self.now.rate) legal (S.meaning self.now.source) start target
            (length work.old.entries.now) (length work.old.waiting.now) (costs result) }
        ensures searched { LeftSearched (R.order self.now.rate) (S.meaning self.now.source) start target work.new
            result (λ n. n) }
        ensures rest { Spared (S.meaning self.now.source) work.old work.new }
        ensures same { Untouched work.old work.new result }
    {
        measure(&self.source, &self.rate, start, target, work)
    }
}
