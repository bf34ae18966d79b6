// A cheapest route between two cells of a planner's floor, by its corners.
ghost use Rattle.std.specs.Prelude.{◌≡◌, ◌≤◌, length, take, drop};
ghost use Rattle.floor.specs.Plans.{legal};
ghost use Rattle.lengths.specs.Answers.{RouteTold, drawn_costs, corner_count};
ghost use Rattle.lengths.specs.Lists.{Spared, Untouched};
ghost use Rattle.lengths.specs.Searched.{LeftSearched};

use crate::marking::Planner;
use floor::Cell;
use lengths::{Drawn, Refusal, draw};
use rate::Rate;
use search::Work;
use source::JumpSource;

impl<S: JumpSource, R: Rate> Planner<S, R> {
    // The length of a cheapest route, and how many corners of it were written to the front of the corner list.
    pub fn route(
        &self,
        start: Cell,
        target: Cell,
        work: &mut Work<'_>,
        corners: &mut [Cell],
    ) -> Result<Drawn, Refusal>
        ensures told { RouteTold (R.order self.now.rate) legal (S.meaning self.now.source) start target
            (length work.old.entries.now) (length work.old.waiting.now) (length corners.old)
            (take (corner_count result) corners.new) (drawn_costs result) }
        ensures past { (corner_count result ≤ length corners.old) ×
            (drop (corner_count result) corners.new ≡ drop (corner_count result) corners.old) }
        ensures searched { LeftSearched (R.order self.now.rate) (S.meaning self.now.source) start target work.new result
            (λ n. n.measured) }
        ensures rest { Spared (S.meaning self.now.source) work.old work.new }
        ensures same { Untouched work.old work.new result }
    {
        draw(&self.source, &self.rate, start, target, work, corners)
    }
}
