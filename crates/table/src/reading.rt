// Reading a table: whether a cell is open, its labels, and what a label should be by the labels one step on.
ghost use Rattle.std.specs.Prelude.{◌≡◌, ◌+◌, ◌≤◌, IfSome, length};
ghost use Rattle.floor.specs.Plane.{point, step};
ghost use Rattle.table.specs.Layout.{Placed, needed, plan_of};
ghost use Rattle.table.specs.Equations.{live};
ghost use Rattle.source.specs.Within.{sized_plan};

use floor::{Cell, Heading, Side};
use source::{DEAD, Ground, Size, label};

// The ninth number of an open cell.
const OPEN: u16 = 1;

// A table to be read.
#[derive(Clone, Copy)]
pub struct View<'t> {
    pub size: Size,
    pub numbers: &'t [u16],
    ghost fits: { needed size.rows size.cols ≤ length numbers.now },
}

impl<'t> Ground for View<'t> {
    ghost plan = { λ s. plan_of s.size.rows s.size.cols s.numbers.now };

    ghost small = { λ s. sized_plan _ s.size.few };

    fn is_free(&self, cell: Cell) -> bool {
        self.place_of(cell)
            .is_some_and(|place| self.numbers[place + 8] == OPEN)
    }
}

// Kept: cell and heading are two parameters, as in `Ground`.
impl<'t> View<'t> {
    ghost use Rattle.table.specs.Views.{label_in, ends_at, due_at};

    // Where the nine numbers of a cell inside begin.
    pub fn place_of(&self, cell: Cell) -> Option<usize>
        ensures placed { Placed self.now.size.rows self.now.size.cols cell result }
        ensures fits { IfSome result (λ place. place + 9 ≤ length self.now.numbers.now) }
    {
        let index = self.size.index_of(cell)?;
        Some(9 * index)
    }

    // The label of a cell; off the plan it is dead.
    pub fn label(&self, cell: Cell, towards: Heading) -> u16
        ensures { result ≡ label_in self.now (point cell) towards }
    {
        match self.place_of(cell) {
            Some(place) => self.numbers[place + usize::from(towards)],
            None => DEAD,
        }
    }

    fn is_live(&self, cell: Cell, towards: Heading) -> bool
        ensures { result ≡ live (label_in self.now (point cell) towards) }
    {
        self.label(cell, towards) < DEAD
    }

    // Whether a jump ends where the step from `cell` to `next` ends.
    fn ends(&self, cell: Cell, next: Cell, towards: Heading) -> bool
        requires { point next ≡ step towards (point cell) }
        ensures { result ≡ ends_at self.now (point cell) towards }
    {
        if towards.is_diagonal() {
            self.is_live(next, towards.turn(Side::Left))
                || self.is_live(next, towards.turn(Side::Right))
        } else {
            self.makes_stop(cell, next, towards)
        }
    }

    // What the label of a cell should be. The sum never wraps where the labels are right, and needs no bound where they are not yet.
    pub fn due(&self, cell: Cell, towards: Heading) -> u16
        ensures { result ≡ due_at self.now (point cell) towards }
    {
        match self.legal_step(cell, towards) {
            None => DEAD,
            Some(next) if self.ends(cell, next, towards) => label(1, true),
            Some(next) => self.label(next, towards).wrapping_add(1),
        }
    }
}
