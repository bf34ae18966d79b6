// A plan on lent bytes: byte row × columns + column is 0 for an open cell and 1 for a closed one.
ghost use Rattle.std.specs.Prelude.{◌≡◌, ◌*◌, ◌<◌, ◌≤◌, true, length, refl};
ghost use Rattle.std.proofs.Common.{◌∙◌};
ghost use Rattle.source.specs.Sizes.{within_limits};
ghost use Rattle.source.specs.Within.{sized_plan};
ghost use Rattle.octets.specs.Layout.{free_at, plan_of, Kept, Made};
ghost use Rattle.octets.specs.Reaches.{Leads, opens_beside};
ghost use Rattle.octets.specs.Laws.{kept_same, kept_on};

use crate::reaches::{Reach, Stride};
use floor::{Cell, Heading, Side};
use source::{Footprint, Ground, JumpSource, OnMemory, Size};

const OPEN: u8 = 0;

const CLOSED: u8 = 1;

// Only the first rows × columns bytes are the plan's; the others are never written.
#[derive(Drop)]
pub struct ByteSource<'a> {
    size: Size,
    bytes: &'a mut [u8],
    ghost fits: { size.rows * size.cols ≤ length bytes.now },
}

impl<'a> ByteSource<'a> {
    // A new plan of this size, all closed; where the check refuses, the plan of no rows and no columns.
    pub fn make(memory: &'a mut [u8], rows: usize, cols: usize) -> ByteSource<'a>
        ensures plan { Made rows cols memory.old (plan_of result.size.rows result.size.cols result.bytes.now) result.bytes.now }
        ensures same { result.bytes.ghost_name ≡ memory.entry.ghost_name }
    {
        let size = ByteSource::check(rows, cols, memory.len()).unwrap_or(Size::NONE);
        memory[..size.cells()].fill(CLOSED);
        ByteSource {
            size,
            bytes: memory,
        }
    }

    fn is_free_at(&self, index: usize) -> bool
        requires { index < length self.now.bytes.now }
        ensures { result ≡ free_at self.now.bytes.now index }
    {
        self.bytes[index] == OPEN
    }

    // Whether the way to a side is closed at one cell and open at the next.
    fn opens_beside(&self, at: usize, next: usize, aside: Stride) -> bool
        requires { Leads aside at (length self.now.bytes.now) × Leads aside next (length self.now.bytes.now) }
        ensures { result ≡ opens_beside self.now.bytes.now at next aside }
    {
        !self.is_free_at(aside.moved(at)) && self.is_free_at(aside.moved(next))
    }
}

impl<'a> Ground for ByteSource<'a> {
    ghost plan = { λ s. plan_of s.size.rows s.size.cols s.bytes.now };

    ghost small = { λ s. sized_plan _ s.size.few };

    fn is_free(&self, cell: Cell) -> bool {
        let Some(index) = self.size.index_of(cell) else {
            return false;
        };
        self.is_free_at(index)
    }

    // By index along a row or a column: no step of the reach meets an edge. Where no cell lies beside, the cell itself is asked, which is open.
    fn straight_jump(&self, cell: Cell, towards: Heading) -> (u16, bool) {
        if !self.is_free(cell) {
            return (0, false);
        }
        let ahead = Reach::of(self.size, cell, towards);
        let left = Stride::beside(self.size, cell, towards, Side::Left);
        let right = Stride::beside(self.size, cell, towards, Side::Right);
        let mut at = cell.row * self.size.cols + cell.col;
        for steps in 0..ahead.room {
            let next = ahead.stride.moved(at);
            if !self.is_free_at(next) {
                return (steps, false);
            }
            if self.opens_beside(at, next, left) || self.opens_beside(at, next, right) {
                return (steps + 1, true);
            }
            at = next;
        }
        (ahead.room, false)
    }
}

// Kept: size, openness and jumps are handed on here and in `packed` alike, since one impl for all that is ground conflicts with that for a
// lent source; and the plan is told to both traits, since no impl can cite what another says of its type.
impl<'a> JumpSource for ByteSource<'a> {
    ghost meaning = { λ s. plan_of s.size.rows s.size.cols s.bytes.now };

    ghost sized = { λ s. sized_plan _ s.size.few };

    ghost lent = { λ s t. (s.bytes.ghost_name ≡ t.bytes.ghost_name) × (s.size ≡ t.size) × Kept s.size.rows s.size.cols s.bytes.now t.bytes.now };

    ghost stays = { λ s. (refl, refl, kept_same s.size.rows s.size.cols s.bytes.now) };

    ghost goes = { λ s t u p q. (p.0 ∙ q.0, p.1 ∙ q.1, kept_on s.size t.size s.bytes.now t.bytes.now u.bytes.now p.1 p.2 q.2) };

    ghost intact = { λ s t. s.bytes.now ≡ t.bytes.now };

    ghost rests = { λ s. refl };

    ghost passes = { λ s t u p q. p ∙ q };

    fn size(&self) -> Size {
        self.size
    }

    fn is_open(&self, cell: Cell) -> bool {
        self.is_free(cell)
    }

    fn mark(&mut self, cell: Cell, open: bool) -> bool {
        let Some(at) = self.size.index_of(cell) else {
            return false;
        };
        self.bytes[at] = if open { OPEN } else { CLOSED };
        true
    }

    fn jump(&self, cell: Cell, heading: u8) -> (u16, bool) {
        self.jump_on(cell, heading)
    }
}

impl<'a> Footprint for ByteSource<'a> {
    ghost needed = { λ rows cols. rows * cols };

    fn words_for(rows: usize, cols: usize) -> usize
        ensures { within_limits rows cols ≡ true → result ≡ rows * cols }
    {
        rows.saturating_mul(cols)
    }
}

impl<'a> OnMemory<'a> for ByteSource<'a> {
    type Word = u8;

    ghost made = { λ rows cols before lender s.
        Made rows cols before (plan_of s.size.rows s.size.cols s.bytes.now) s.bytes.now
        × (s.bytes.ghost_name ≡ lender) };

    // Kept: in the source's own the clauses name its memory, which callers that know the source can use as they are. So this one hands on.
    fn make(memory: &'a mut [u8], rows: usize, cols: usize) -> ByteSource<'a> {
        ByteSource::make(memory, rows, cols)
    }
}
