// The length of a cheapest route between two cells, over a borrowed source and a borrowed rate.
ghost use Rattle.std.specs.Prelude.{◌≡◌, ℕ, length, drop};
ghost use Rattle.floor.specs.Tally.{none};
ghost use Rattle.floor.specs.Plans.{legal};
ghost use Rattle.search.specs.Mark.{marks, Unmet};
ghost use Rattle.search.specs.Answer.{Answered};
ghost use Rattle.places.specs.Leaps.{out, goal};
ghost use Rattle.lengths.specs.Questions.{places as places_of};
ghost use Rattle.lengths.specs.Answers.{costs, LengthTold};
ghost use Rattle.lengths.specs.Lists.{Roomy, of_places, Spared, Untouched};
ghost use Rattle.lengths.specs.Searched.{LeftSearched};

use crate::answers::{Measured, Refusal};
use crate::asking::{Room, check, places};
use crate::leaps::Leaps;
use floor::{Cell, Counts};
use rate::Rate;
use search::entry::Entry;
use search::{Found, Work, clear, search};
use source::JumpSource;

// Searches the leaps between two cells; both work lists have room for every place.
pub fn reach<S: JumpSource, R: Rate>(
    source: &S,
    rate: &R,
    start: Cell,
    target: Cell,
    work: &mut Work<'_>,
) -> Option<Found>
    requires entries { Roomy (S.JumpSource.meaning source.now) work.old.entries.now }
    requires waiting { Roomy (S.JumpSource.meaning source.now) work.old.waiting.now }
    ensures answered { Answered (out (S.JumpSource.meaning source.now) start target) (R.Rate.order rate.now) (goal (S.JumpSource.meaning source.now) start target) (of_places (S.JumpSource.meaning source.now) work.new.entries.now) result }
    ensures rest { Spared (S.JumpSource.meaning source.now) work.old work.new }
{
    let graph = Leaps {
        source,
        start,
        target,
    };
    search(&graph, rate, work)
}

// Where start and target are one cell there is nothing to search, and nothing is finished.
pub(crate) fn stay<S: JumpSource>(source: &S, entries: &mut [Entry]) -> Measured
    requires { Roomy (S.JumpSource.meaning source.now) entries.old }
    ensures nothing { (result.counts ≡ none) × (result.finished ≡ 0) }
    ensures cleared { (k : ℕ) → marks (of_places (S.JumpSource.meaning source.now) entries.new) k ≡ Unmet }
    ensures rest { drop (places_of (S.JumpSource.meaning source.now)) entries.new ≡ drop (places_of (S.JumpSource.meaning source.now)) entries.old }
{
    clear(&mut entries[..places(source)]);
    Measured {
        counts: Counts::NONE,
        finished: 0,
    }
}

// The counts of a cheapest route, and how many places the search for it finished.
// Kept: start and target are two arguments, since nothing holds of the pair and a struct would only be taken apart: no plainer.
pub fn measure<S: JumpSource, R: Rate>(
    source: &S,
    rate: &R,
    start: Cell,
    target: Cell,
    work: &mut Work<'_>,
) -> Result<Measured, Refusal>
    ensures told { LengthTold (R.Rate.order rate.now) legal (S.JumpSource.meaning source.now) start target (length work.old.entries.now) (length work.old.waiting.now) (costs result) }
    ensures searched { LeftSearched (R.Rate.order rate.now) (S.JumpSource.meaning source.now) start target work.new result (λ n. n) }
    ensures rest { Spared (S.JumpSource.meaning source.now) work.old work.new }
    ensures same { Untouched work.old work.new result }
{
    check(source, start, target, Room::of(work))?;
    if start == target {
        return Ok(stay(source, work.entries));
    }
    let Some(found) = reach(source, rate, start, target, work) else {
        return Err(Refusal::NoRoute);
    };
    Ok(Measured::from(found))
}
