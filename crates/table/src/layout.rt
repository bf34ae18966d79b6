// A plan on lent numbers, nine to a cell: its eight labels, in the order of the headings, then 1 if it is open and 0 if not.
ghost use Rattle.std.specs.Prelude.{◌≡◌, ℕ, ◌%◌, ◌<◌, ◌≤◌, length, drop, if◌then◌else◌, nat_eq, slice_index, refl, true};
ghost use Rattle.std.proofs.Common.{◌∙◌};
ghost use Rattle.floor.specs.Jumps.{jump_of};
ghost use Rattle.source.specs.Labels.{label_of};
ghost use Rattle.source.specs.Sizes.{within_limits};
ghost use Rattle.table.specs.Layout.{needed, plan_of, Defined, Made};
ghost use Rattle.source.specs.Within.{sized_plan};
ghost use Rattle.table.specs.Laws.{kept_on};

use crate::mending::Table;
use crate::reading::View;
use floor::{Cell, Heading};
use source::{DEAD, Footprint, Ground, JumpSource, OnMemory, Size, read_label};

// The ninth number of a closed cell.
const CLOSED: u16 = 0;

// At every moment each number of the plan is the defined one; numbers past the plan are never written.
#[derive(Drop)]
pub struct TableSource<'a> {
    size: Size,
    numbers: &'a mut [u16],
    ghost fits: { needed size.rows size.cols ≤ length numbers.now },
    ghost defined: { Defined (plan_of size.rows size.cols numbers.now) numbers.now },
}

impl<'a> TableSource<'a> {
    // A new plan of this size, all closed; where the check refuses, the plan of no rows and no columns.
    pub fn make(memory: &'a mut [u16], rows: usize, cols: usize) -> TableSource<'a>
        ensures plan { Made rows cols memory.old (plan_of result.size.rows result.size.cols result.numbers.now) result.numbers.now }
        ensures same { result.numbers.ghost_name ≡ memory.entry.ghost_name }
    {
        let size = TableSource::check(rows, cols, memory.len()).unwrap_or(Size::NONE);
        close_all(&mut memory[..9 * size.cells()]);
        TableSource {
            size,
            numbers: memory,
        }
    }

    // Kept: a table has these lines too, for the reason given there: with the view made where it is asked for, the check does not know any
    // more, once it is let go, that the numbers are as before.
    fn view(&self) -> View<'_>
        ensures { (result.size ≡ self.now.size) × (result.numbers.now ≡ self.now.numbers.now) }
    {
        View {
            size: self.size,
            numbers: &*self.numbers,
        }
    }

    // The eight labels of a cell, as they stand in the table; off the plan they are dead.
    pub fn labels(&self, cell: Cell) -> [u16; 8]
        ensures len { length result ≡ 8 }
        ensures made { (h : ℕ) → h < 8 → slice_index result h ≡ label_of (jump_of (plan_of self.now.size.rows self.now.size.cols self.now.numbers.now) cell h) }
    {
        let mut all = [DEAD; 8];
        if let Some(place) = self.view().place_of(cell) {
            // Kept: it is a rule of the project that the array of eight is filled heading by heading.
            for heading in 0..8 {
                all[heading] = self.numbers[place + heading];
            }
        }
        all
    }
}

// Writes numbers as those of closed cells.
// Kept: over nine numbers at a time, by chunks_exact_mut or as_chunks_mut, it was not proved: nothing is known afterwards of what the numbers are.
fn close_all(numbers: &mut [u16])
    ensures { (k : ℕ) → k < length numbers.old → slice_index numbers.new k ≡ (if nat_eq (k % 9) 8 then 0 else 32768) }
{
    for (i, number) in numbers.iter_mut().enumerate() {
        *number = if i % 9 == 8 { CLOSED } else { DEAD };
    }
}

impl<'a> JumpSource for TableSource<'a> {
    ghost meaning = { λ s. plan_of s.size.rows s.size.cols s.numbers.now };

    ghost sized = { λ s. sized_plan _ s.size.few };

    ghost lent = { λ s t. (s.numbers.ghost_name ≡ t.numbers.ghost_name) × (s.size ≡ t.size) × (drop (needed s.size.rows s.size.cols) t.numbers.now ≡ drop (needed s.size.rows s.size.cols) s.numbers.now) };

    ghost stays = { λ s. (refl, refl, refl) };

    ghost goes = { λ s t u p q. (p.0 ∙ q.0, p.1 ∙ q.1, kept_on s.size t.size s.numbers.now t.numbers.now u.numbers.now p.1 p.2 q.2) };

    ghost intact = { λ s t. s.numbers.now ≡ t.numbers.now };

    ghost rests = { λ s. refl };

    ghost passes = { λ s t u p q. p ∙ q };

    fn size(&self) -> Size {
        self.size
    }

    fn is_open(&self, cell: Cell) -> bool {
        self.view().is_free(cell)
    }

    fn mark(&mut self, cell: Cell, open: bool) -> bool {
        let Some(place) = self.view().place_of(cell) else {
            return false;
        };
        // Kept: the numbers are taken out while they are mended, and put back when each is right again; over a table that stood
        // in the source and was mended there, it could not be proved what the memory says once the source is gone.
        let mut table = Table {
            size: self.size,
            numbers: std::mem::take(&mut self.numbers),
        };
        table.mark(cell, place, open);
        let Table { numbers, .. } = table;
        self.numbers = numbers;
        true
    }

    fn jump(&self, cell: Cell, heading: u8) -> (u16, bool) {
        let Ok(towards) = Heading::try_from(heading) else {
            return (0, false);
        };
        read_label(self.view().label(cell, towards))
    }
}

impl<'a> Footprint for TableSource<'a> {
    ghost needed = { needed };

    fn words_for(rows: usize, cols: usize) -> usize
        ensures { within_limits rows cols ≡ true → result ≡ needed rows cols }
    {
        rows.saturating_mul(cols).saturating_mul(9)
    }
}

impl<'a> OnMemory<'a> for TableSource<'a> {
    type Word = u16;

    ghost made = { λ rows cols before lender s.
        Made rows cols before (plan_of s.size.rows s.size.cols s.numbers.now) s.numbers.now
        × (s.numbers.ghost_name ≡ lender) };

    // Kept: in the source's own the clauses name its memory, which callers that know the source can use as they are. So this one hands on.
    fn make(memory: &'a mut [u16], rows: usize, cols: usize) -> TableSource<'a> {
        TableSource::make(memory, rows, cols)
    }
}
