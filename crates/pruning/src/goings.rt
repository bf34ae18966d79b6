// Where a chain goes on: a mark for each heading's number. At a place it asks the source about four cells at most.
ghost use Rattle.std.specs.Prelude.{◌≡◌, false, ◌||◌};
ghost use Rattle.floor.specs.declared.Cell.{Cell as Spot};
ghost use Rattle.floor.specs.declared.Heading.{Heading as Course};
ghost use Rattle.floor.specs.Plane.{point, same, turn, opposite, diagonal, step};
ghost use Rattle.floor.specs.Plans.{Plan, opens};
ghost use Rattle.floor.specs.Jumps.{stop};
ghost use Rattle.floor.specs.Places.{start, place, opened};
ghost use Rattle.pruning.specs.Goings.{taken, Goings};

use floor::{Cell, Heading, Side};
use source::JumpSource;

// From the start a chain goes on in all headings.
pub fn goings_from_start() -> [bool; 8]
    ensures { (p : Plan) (s : Spot) → Goings p (start (point s)) result }
{
    [true; 8]
}

// From a place it goes on ahead; on a diagonal heading also to both sides, on a straight one towards each side on which its cell is a stop.
pub fn goings_from_place<S: JumpSource>(source: &S, cell: Cell, arrival: Heading) -> [bool; 8]
    ensures { Goings (S.JumpSource.meaning source.now) (place (point cell) arrival) result }
{
    let ahead = including([false; 8], arrival);
    if arrival.is_diagonal() {
        let left = including(ahead, arrival.turn(Side::Left));
        including(left, arrival.turn(Side::Right))
    } else {
        let at = StraightPlace { cell, arrival };
        let left = at.including_side(ahead, source, Side::Left);
        at.including_side(left, source, Side::Right)
    }
}

// One heading more.
fn including(on: [bool; 8], heading: Heading) -> [bool; 8]
    ensures { (g : Course) → taken result g ≡ (same g heading || taken on g) }
{
    let mut more = on;
    more[usize::from(heading)] = true;
    more
}

// A place that is reached with a straight heading.
#[derive(Clone, Copy)]
struct StraightPlace {
    cell: Cell,
    arrival: Heading,
    ghost straight: { diagonal arrival ≡ false },
}

impl StraightPlace {
    // The two headings more that a stop on a side opens up, if there is one.
    fn including_side<S: JumpSource>(self, on: [bool; 8], source: &S, side: Side) -> [bool; 8]
        ensures { (g : Course) → taken result g ≡ (opened (S.JumpSource.meaning source.now) (point self.cell) self.arrival g side || taken on g) }
    {
        if self.is_stop(source, side) {
            including(including(on, self.aside(side)), self.arrival.turn(side))
        } else {
            on
        }
    }

    // Whether the step that ends here makes the cell a stop on a side: the cell beside it is open, the one beside the cell before is not.
    fn is_stop<S: JumpSource>(self, source: &S, side: Side) -> bool
        ensures { result ≡ stop (opens (S.JumpSource.meaning source.now)) (step (opposite self.arrival) (point self.cell)) self.arrival side }
    {
        is_open_on(source, self.cell, self.aside(side))
            && !is_open_on(source, self.cell, self.behind(side))
    }

    // Straight to a side.
    fn aside(self, side: Side) -> Heading
        ensures { result ≡ turn side (turn side self.arrival) }
    {
        self.arrival.turn(side).turn(side)
    }

    // To a side and back by one: beside the cell before.
    fn behind(self, side: Side) -> Heading
        ensures { result ≡ turn side (turn side (turn side self.arrival)) }
    {
        self.aside(side).turn(side)
    }
}

// Whether the cell one step on is open.
// Kept: the line of `Ground` once more, since a source is not asked through that trait; one for both would be no plainer.
fn is_open_on<S: JumpSource>(source: &S, cell: Cell, towards: Heading) -> bool
    ensures { result ≡ opens (S.JumpSource.meaning source.now) (step towards (point cell)) }
{
    cell.stepped(towards)
        .is_some_and(|next| source.is_open(next))
}
