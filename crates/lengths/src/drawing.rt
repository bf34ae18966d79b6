// The corners of a cheapest route, from the entries that a search leaves.
ghost use Rattle.std.specs.Prelude.{◌≡◌, ◌+◌, ◌<◌, ◌≤◌, not, List, [], ◌∷◌, ◌++◌, length, take, drop};
ghost use Rattle.floor.specs.declared.Cell.{Cell as Spot};
ghost use Rattle.floor.specs.Plane.{same};
ghost use Rattle.search.specs.Mark.{marks};
ghost use Rattle.places.specs.Leaps.{cell_of, heading_of};
ghost use Rattle.floor.specs.Plans.{legal};
ghost use Rattle.lengths.specs.Answers.{RouteTold, drawn_costs, corner_count};
ghost use Rattle.lengths.specs.Lists.{Roomy, of_places, Spared, Untouched};
ghost use Rattle.lengths.specs.Searched.{LeftSearched};
ghost use Rattle.lengths.specs.Trail.{Trail, Falls};

use crate::answers::{Drawn, Measured, Refusal};
use crate::asking::{Room, check_route, places};
use crate::measuring::{reach, stay};
use floor::Cell;
use places::{cell_of, heading_of};
use rate::Rate;
use search::Work;
use search::graph::Position;
use source::JumpSource;

// Whether the heading changes between two places.
fn turns(back: u32, at: u32) -> bool
    ensures { result ≡ not (same (heading_of back) (heading_of at)) }
{
    heading_of(back) != heading_of(at)
}

// Writes the corners of the way to a finished place, and answers how many. The way is walked back, and then turned round.
// Kept: the count stands beside the lent list, since it is the answer; a struct of both would be taken apart at once: no plainer.
fn write_corners<S: JumpSource>(
    source: &S,
    work: &Work<'_>,
    start: Cell,
    place: u32,
    corners: &mut [Cell],
) -> usize
    requires some { 0 < (S.JumpSource.meaning source.now).cols }
    requires way { (cs : List Spot) × Trail (S.JumpSource.meaning source.now).cols start (marks (of_places (S.JumpSource.meaning source.now) work.now.entries.now)) place cs × (length cs + 1 ≤ length corners.old) }
    requires held { Roomy (S.JumpSource.meaning source.now) work.now.entries.now }
    requires falls { Falls (marks (of_places (S.JumpSource.meaning source.now) work.now.entries.now)) }
    ensures { (cs : List Spot) → Trail (S.JumpSource.meaning source.now).cols start (marks (of_places (S.JumpSource.meaning source.now) work.now.entries.now)) place cs → (result ≡ length cs + 1) × (corners.new ≡ (cs ++ cell_of (S.JumpSource.meaning source.now).cols place ∷ []) ++ drop result corners.old) }
{
    let cols = source.size().cols;
    let all = &*work.entries;
    let entries = &all[..places(source)];
    corners[0] = cell_of(place, cols);
    let mut count = 1;
    let mut at = place;
    let mut from = entries[place as usize].reached().from;
    while let Position::Place(back) = from {
        if turns(back, at) {
            corners[count] = cell_of(back, cols);
            count += 1;
        }
        at = back;
        from = entries[back as usize].reached().from;
    }
    corners[count] = start;
    count += 1;
    corners[..count].reverse();
    count
}

// A cheapest route: its length, and its corners at the front of the corner list.
pub fn draw<S: JumpSource, R: Rate>(
    source: &S,
    rate: &R,
    start: Cell,
    target: Cell,
    work: &mut Work<'_>,
    corners: &mut [Cell],
) -> Result<Drawn, Refusal>
    ensures told { RouteTold (R.Rate.order rate.now) legal (S.JumpSource.meaning source.now) start target (length work.old.entries.now) (length work.old.waiting.now) (length corners.old) (take (corner_count result) corners.new) (drawn_costs result) }
    ensures past { (corner_count result ≤ length corners.old) × (drop (corner_count result) corners.new ≡ drop (corner_count result) corners.old) }
    ensures searched { LeftSearched (R.Rate.order rate.now) (S.JumpSource.meaning source.now) start target work.new result (λ n. n.measured) }
    ensures rest { Spared (S.JumpSource.meaning source.now) work.old work.new }
    ensures same { Untouched work.old work.new result }
{
    check_route(source, start, target, Room::of(work), corners.len())?;
    if start == target {
        corners[0] = start;
        return Ok(Drawn {
            measured: stay(source, work.entries),
            corners: 1,
        });
    }
    let Some(found) = reach(source, rate, start, target, work) else {
        return Err(Refusal::NoRoute);
    };
    let count = write_corners(source, work, start, found.place, corners);
    Ok(Drawn {
        measured: Measured::from(found),
        corners: count,
    })
}
