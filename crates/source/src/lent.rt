// A lent source is a source, so that a planner may hold one or borrow one.
ghost use Rattle.std.specs.Prelude.{◌≡◌, refl};
ghost use Rattle.std.proofs.Common.{◌∙◌};

use crate::extents::Size;
use crate::traits::JumpSource;
use floor::Cell;

impl<'b, S: JumpSource> JumpSource for &'b mut S {
    ghost meaning = { λ s. S.JumpSource.meaning s.now };

    ghost sized = { λ s. S.JumpSource.sized s.now };

    ghost lent = { λ s t. (s.ghost_name ≡ t.ghost_name) × S.JumpSource.lent s.now t.now };

    ghost stays = { λ s. (refl, S.JumpSource.stays s.now) };

    ghost goes = { λ s t u p q. (p.0 ∙ q.0, S.JumpSource.goes s.now t.now u.now p.1 q.1) };

    ghost intact = { λ s t. (s.ghost_name ≡ t.ghost_name) × S.JumpSource.intact s.now t.now };

    ghost rests = { λ s. (refl, S.JumpSource.rests s.now) };

    ghost passes = { λ s t u p q. (p.0 ∙ q.0, S.JumpSource.passes s.now t.now u.now p.1 q.1) };

    fn size(&self) -> Size {
        (**self).size()
    }

    fn is_open(&self, cell: Cell) -> bool {
        (**self).is_open(cell)
    }

    fn mark(&mut self, cell: Cell, open: bool) -> bool {
        (**self).mark(cell, open)
    }

    fn jump(&self, cell: Cell, heading: u8) -> (u16, bool) {
        (**self).jump(cell, heading)
    }
}
