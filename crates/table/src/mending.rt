// Mending a table: labels are put right from where a mark may have broken their equations, back against each heading.
ghost use Rattle.std.specs.Prelude.{◌≡◌, ◌≤◌, [], Some, length};
ghost use Rattle.floor.specs.Plane.{point};
ghost use Rattle.table.specs.Layout.{Placed, Defined, Remarked, needed, plan_of};
ghost use Rattle.table.specs.Equations.{PutRight, seeds, all_seeds};

use crate::reading::View;
use floor::{Cell, Heading, Side};
use source::{DEAD, Size};

// What putting a label right did to it.
#[derive(Clone, Copy)]
pub enum Change {
    Same,
    // It has other steps.
    Steps,
    // It turned live or dead.
    Life,
}

// Straight ones first, since diagonal labels look at straight ones.
const HEADINGS: [Heading; 8] = [
    Heading::North,
    Heading::East,
    Heading::South,
    Heading::West,
    Heading::NorthEast,
    Heading::SouthEast,
    Heading::SouthWest,
    Heading::NorthWest,
];

// A table whose labels may not be right.
#[derive(Drop)]
pub struct Table<'n> {
    pub size: Size,
    pub numbers: &'n mut [u16],
    ghost fits: { needed size.rows size.cols ≤ length numbers.now },
}

impl<'n> Table<'n> {
    ghost use Rattle.table.specs.Tables.{Stays, MendsOn, seed_at, seeds_around};

    // Kept: the source has these lines too. With the view made in `put_right`, the one place that asks for it here, the check did not
    // know any more, once the view was let go, that the numbers were as before.
    fn view(&self) -> View<'_>
        ensures { (result.size ≡ self.now.size) × (result.numbers.now ≡ self.now.numbers.now) }
    {
        View {
            size: self.size,
            numbers: &*self.numbers,
        }
    }

    // Puts right the label of a cell with a heading.
    fn put_right(&mut self, cell: Cell, towards: Heading) -> Change
        ensures stays { Stays self.old self.new }
        ensures put { PutRight self.old.size.rows self.old.size.cols self.old.numbers.now cell towards self.new.numbers.now result }
    {
        let view = self.view();
        let Some(place) = view.place_of(cell) else {
            return Change::Same;
        };
        let old = view.label(cell, towards);
        let due = view.due(cell, towards);
        if due == old {
            return Change::Same;
        }
        self.numbers[place + usize::from(towards)] = due;
        if (due < DEAD) == (old < DEAD) {
            Change::Steps
        } else {
            Change::Life
        }
    }

    // Walks back from a cell, if there is one, and puts labels right for as long as they change. Where a straight one turned live or dead,
    // the two diagonal headings that look at it are followed back at once, in the same way.
    fn mend_from(&mut self, from: Option<Cell>, towards: Heading)
        ensures { MendsOn self.old (seed_at from towards) self.new [] }
    {
        let mut at = from;
        while let Some(cell) = at {
            match self.put_right(cell, towards) {
                Change::Same => return,
                Change::Steps => {}
                Change::Life => {
                    if !towards.is_diagonal() {
                        let left = towards.turn(Side::Left);
                        let right = towards.turn(Side::Right);
                        self.mend_from(cell.stepped(left.opposite()), left);
                        self.mend_from(cell.stepped(right.opposite()), right);
                    }
                }
            }
            at = cell.stepped(towards.opposite());
        }
    }

    // The same from the cells next to `cell` on some sides.
    fn mend_around(&mut self, cell: Cell, sides: &[Heading], towards: Heading)
        ensures { MendsOn self.old (seeds_around (point cell) sides.now towards) self.new [] }
    {
        for side in sides {
            self.mend_from(cell.stepped(*side), towards);
        }
    }

    // Mends the labels of one heading after a mark at `cell`: from there, and from the cells around it whose step, or a cell beside that step, can reach it.
    fn mend_heading(&mut self, cell: Cell, towards: Heading)
        ensures { MendsOn self.old (seeds (point cell) towards) self.new [] }
    {
        let back = towards.opposite();
        let left = back.turn(Side::Left);
        let right = back.turn(Side::Right);
        self.mend_from(Some(cell), towards);
        self.mend_around(cell, &[back, left, right], towards);
        if !towards.is_diagonal() {
            let further = [left.turn(Side::Left), right.turn(Side::Right)];
            self.mend_around(cell, &further, towards);
        }
    }

    // Mends all labels after a mark at `cell`.
    fn mend(&mut self, cell: Cell)
        ensures { MendsOn self.old (all_seeds (point cell)) self.new [] }
    {
        for towards in HEADINGS {
            self.mend_heading(cell, towards);
        }
    }

    // Sets a cell inside, whose numbers begin at `place`, open or closed, and mends the labels. Where it is set so already nothing is touched.
    pub fn mark(&mut self, cell: Cell, place: usize, open: bool)
        requires within { Placed self.old.size.rows self.old.size.cols cell (Some place) }
        requires defined { Defined (plan_of self.old.size.rows self.old.size.cols self.old.numbers.now) self.old.numbers.now }
        ensures stays { Stays self.old self.new }
        ensures remarked { Remarked self.old.size.rows self.old.size.cols self.old.numbers.now cell «open» self.new.numbers.now }
    {
        let number = u16::from(open);
        if self.numbers[place + 8] != number {
            self.numbers[place + 8] = number;
            self.mend(cell);
        }
    }
}
