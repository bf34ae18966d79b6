// Ground to walk on: from the question whether a cell is open follow the steps, the stops and the jumps.
ghost use Rattle.std.specs.Prelude.{◌≡◌, Bool, true, false};
ghost use Rattle.floor.specs.Plane.{Point, point, diagonal, step};
ghost use Rattle.floor.specs.Plans.{Plan, Sized, opens, is_open};
ghost use Rattle.floor.specs.Jumps.{jump_of};
ghost use Rattle.source.specs.Ground.{clear_of_corners, side_opens, stops_at, LegalStep, scanned, Tells, straight_from, diagonal_from, live_beside};

use floor::{Cell, Heading, Side};

// A source that is ground gives `is_free`; one that finds straight jumps faster than step by step gives `straight_jump` too.
// Kept: cell and heading are two parameters. Nothing holds of the pair, and each question is about another, which would be made for it and taken apart.
pub trait Ground {
    ghost plan: { Self → Plan };

    ghost small: { (s : Self) → Sized (plan s) };

    fn is_free(&self, cell: Cell) -> bool
        ensures { result ≡ is_open (plan self.now) cell };

    // Whether the cell one step on is open.
    fn is_free_on(&self, cell: Cell, towards: Heading) -> bool
        ensures { result ≡ opens (plan self.now) (step towards (point cell)) }
    {
        cell.stepped(towards).is_some_and(|next| self.is_free(next))
    }

    // A diagonal step needs the two cells beside it open too.
    fn cuts_no_corner(&self, cell: Cell, towards: Heading) -> bool
        ensures { result ≡ clear_of_corners (plan self.now) cell towards }
    {
        !towards.is_diagonal()
            || (self.is_free_on(cell, towards.turn(Side::Left))
                && self.is_free_on(cell, towards.turn(Side::Right)))
    }

    // Where a step from an open cell ends, if it is legal.
    fn step_from_free(&self, cell: Cell, towards: Heading) -> Option<Cell>
        requires { is_open (plan self.now) cell ≡ true }
        ensures { LegalStep (plan self.now) cell towards result }
    {
        let next = cell.stepped(towards)?;
        if self.is_free(next) && self.cuts_no_corner(cell, towards) {
            Some(next)
        } else {
            None
        }
    }

    // Where a legal step ends.
    fn legal_step(&self, cell: Cell, towards: Heading) -> Option<Cell>
        ensures { LegalStep (plan self.now) cell towards result }
    {
        if self.is_free(cell) {
            self.step_from_free(cell, towards)
        } else {
            None
        }
    }

    // Whether the way to a side is closed at one cell and open at the next.
    fn opens_up(&self, cell: Cell, next: Cell, aside: Heading) -> bool
        ensures { result ≡ side_opens (plan self.now) cell next aside }
    {
        !self.is_free_on(cell, aside) && self.is_free_on(next, aside)
    }

    // Whether a straight step makes its end a stop.
    fn makes_stop(&self, cell: Cell, next: Cell, towards: Heading) -> bool
        ensures { result ≡ stops_at (plan self.now) cell next towards }
    {
        self.opens_up(cell, next, towards.turn(Side::Left).turn(Side::Left))
            || self.opens_up(cell, next, towards.turn(Side::Right).turn(Side::Right))
    }

    // Legal steps up to the first of which a question about its two cells is answered yes.
    fn jump_until<F: Fn(Cell, Cell) -> bool>(
        &self,
        cell: Cell,
        towards: Heading,
        ends: F,
    ) -> (u16, bool)
        requires { F.IsAlwaysCallable ends }
        ensures { (mark : Point → Bool) → Tells (F.post ends) towards mark → result ≡ scanned (plan self.now) mark towards (point cell) }
    {
        if !self.is_free(cell) {
            return (0, false);
        }
        // Kept: the steps are counted by hand, since their count is the answer.
        let mut steps: u16 = 0;
        let mut at = cell;
        while let Some(next) = self.step_from_free(at, towards) {
            steps += 1;
            if ends(at, next) {
                return (steps, true);
            }
            at = next;
        }
        (steps, false)
    }

    // Legal steps up to the first that ends at a stop.
    fn straight_jump(&self, cell: Cell, towards: Heading) -> (u16, bool)
        requires { diagonal towards ≡ false }
        ensures { result ≡ straight_from (plan self.now) cell towards }
    {
        self.jump_until(cell, towards, |at, next| self.makes_stop(at, next, towards))
    }

    // Whether a straight jump beside a diagonal heading is live.
    fn is_live_beside(&self, cell: Cell, towards: Heading) -> bool
        requires { diagonal towards ≡ true }
        ensures { result ≡ live_beside (plan self.now) cell towards }
    {
        self.straight_jump(cell, towards.turn(Side::Left)).1
            || self.straight_jump(cell, towards.turn(Side::Right)).1
    }

    // Legal steps up to the first from whose end a straight jump beside is live.
    fn diagonal_jump(&self, cell: Cell, towards: Heading) -> (u16, bool)
        requires { diagonal towards ≡ true }
        ensures { result ≡ diagonal_from (plan self.now) cell towards }
    {
        self.jump_until(cell, towards, |_, next| self.is_live_beside(next, towards))
    }

    // The jump with a heading's number; above 7 there is none.
    fn jump_on(&self, cell: Cell, heading: u8) -> (u16, bool)
        ensures { result ≡ jump_of (plan self.now) cell heading }
    {
        let Ok(towards) = Heading::try_from(heading) else {
            return (0, false);
        };
        if towards.is_diagonal() {
            self.diagonal_jump(cell, towards)
        } else {
            self.straight_jump(cell, towards)
        }
    }
}
