// A plan on lent words, by rows and by columns: a set bit is a closed cell.
ghost use Rattle.std.specs.Prelude.{◌≡◌, ◌<◌, true, drop, refl};
ghost use Rattle.std.proofs.Common.{◌∙◌};
ghost use Rattle.floor.specs.Plans.{marked};
ghost use Rattle.source.specs.Sizes.{within_limits};
ghost use Rattle.source.specs.Within.{sized_plan};
ghost use Rattle.packed.specs.Layout.{words_needed, plan_of, Laid, Kept, Made};
ghost use Rattle.packed.specs.Laws.{kept_same, kept_on};

use crate::copies::lines_around;
use crate::halves::{Half, WORD, words_needed};
use crate::scans::{is_upright, scan, way_of};
use crate::words::{is_set, with_bit};
use floor::{Cell, Heading};
use source::{Footprint, Ground, JumpSource, OnMemory, Size};

// The words past those that the plan needs are never written.
#[derive(Drop)]
pub struct PackedSource<'a> {
    size: Size,
    words: &'a mut [u64],
    ghost laid: { Laid size.rows size.cols words.now },
}

impl<'a> PackedSource<'a> {
    // A new plan of this size, all closed; where the check refuses, the plan of no rows and no columns.
    pub fn make(memory: &'a mut [u64], rows: usize, cols: usize) -> PackedSource<'a>
        ensures plan { Made rows cols memory.old (plan_of result.size.rows result.size.cols result.words.now) result.words.now }
        ensures same { result.words.ghost_name ≡ memory.entry.ghost_name }
    {
        let size = PackedSource::check(rows, cols, memory.len()).unwrap_or(Size::NONE);
        memory[..words_needed(size.rows, size.cols)].fill(u64::MAX);
        PackedSource {
            size,
            words: memory,
        }
    }
}

// Writes the bit of a cell in both halves. The words are lent together with the reference to them: what a source
// promises of its words is owed when they come back, and between the two writes it does not hold.
fn mark_words(words: &mut &mut [u64], size: Size, cell: Cell, open: bool)
    requires laid { Laid size.rows size.cols words.old.now }
    requires inside { (cell.row < size.rows) × (cell.col < size.cols) }
    ensures laid { Laid size.rows size.cols words.new.now }
    ensures plan { plan_of size.rows size.cols words.new.now ≡ marked (plan_of size.rows size.cols words.old.now) cell «open» }
    ensures same { words.new.ghost_name ≡ words.old.ghost_name }
    ensures rest { drop (words_needed size.rows size.cols) words.new.now ≡ drop (words_needed size.rows size.cols) words.old.now }
{
    let across = Half::by_rows(size).word_of(cell.row, cell.col);
    words[across] = with_bit(words[across], cell.col % WORD, !open);
    let down = Half::by_columns(size).word_of(cell.col, cell.row);
    words[down] = with_bit(words[down], cell.row % WORD, !open);
}

impl<'a> Ground for PackedSource<'a> {
    ghost plan = { λ s. plan_of s.size.rows s.size.cols s.words.now };

    ghost small = { λ s. sized_plan _ s.size.few };

    fn is_free(&self, cell: Cell) -> bool {
        if !self.size.holds(cell) {
            return false;
        }
        let word = Half::by_rows(self.size).word_of(cell.row, cell.col);
        !is_set(self.words[word], cell.col % WORD)
    }

    // Along a row or along a column, three lines are scanned a word at a time.
    fn straight_jump(&self, cell: Cell, towards: Heading) -> (u16, bool) {
        if !self.is_free(cell) {
            return (0, false);
        }
        let (half, line, place) = if is_upright(towards) {
            (Half::by_columns(self.size), cell.col, cell.row)
        } else {
            (Half::by_rows(self.size), cell.row, cell.col)
        };
        scan(
            &lines_around(self.words, half, line),
            place,
            way_of(towards),
        )
    }
}

// Kept: size, openness and jumps are handed on here and in `octets` alike, since one impl for all that is ground conflicts with that for a
// lent source; and the plan is told to both traits, since no impl can cite what another says of its type.
impl<'a> JumpSource for PackedSource<'a> {
    ghost meaning = { λ s. plan_of s.size.rows s.size.cols s.words.now };

    ghost sized = { λ s. sized_plan _ s.size.few };

    ghost lent = { λ s t. (s.words.ghost_name ≡ t.words.ghost_name) × (s.size ≡ t.size) × Kept s.size.rows s.size.cols s.words.now t.words.now };

    ghost stays = { λ s. (refl, refl, kept_same s.size.rows s.size.cols s.words.now) };

    ghost goes = { λ s t u p q. (p.0 ∙ q.0, p.1 ∙ q.1, kept_on s.size t.size s.words.now t.words.now u.words.now p.1 p.2 q.2) };

    ghost intact = { λ s t. s.words.now ≡ t.words.now };

    ghost rests = { λ s. refl };

    ghost passes = { λ s t u p q. p ∙ q };

    fn size(&self) -> Size {
        self.size
    }

    fn is_open(&self, cell: Cell) -> bool {
        self.is_free(cell)
    }

    fn mark(&mut self, cell: Cell, open: bool) -> bool {
        let inside = self.size.holds(cell);
        if inside {
            mark_words(&mut self.words, self.size, cell, open);
        }
        inside
    }

    fn jump(&self, cell: Cell, heading: u8) -> (u16, bool) {
        self.jump_on(cell, heading)
    }
}

impl<'a> Footprint for PackedSource<'a> {
    ghost needed = { words_needed };

    fn words_for(rows: usize, cols: usize) -> usize
        ensures { within_limits rows cols ≡ true → result ≡ words_needed rows cols }
    {
        words_needed(rows, cols)
    }
}

impl<'a> OnMemory<'a> for PackedSource<'a> {
    type Word = u64;

    ghost made = { λ rows cols before lender s.
        Made rows cols before (plan_of s.size.rows s.size.cols s.words.now) s.words.now
        × (s.words.ghost_name ≡ lender) };

    // Kept: in the source's own the clauses name its memory, which callers that know the source can use as they are. So this one hands on.
    fn make(memory: &'a mut [u64], rows: usize, cols: usize) -> PackedSource<'a> {
        PackedSource::make(memory, rows, cols)
    }
}
