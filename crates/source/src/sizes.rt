// The size check that every source puts before it is made.
ghost use Rattle.std.specs.Prelude.{◌≡◌};
ghost use Rattle.source.specs.Sizes.{size_number, Checked};

use crate::extents::Size;

// Why no plan is made, with the number of each refusal.
#[derive(Clone, Copy, PartialEq, Eq, Debug)]
pub enum SizeRefusal {
    // Rows and columns are 1 to 128 each.
    Extent = 10,
    // The memory is too short for a plan of this size.
    Memory = 11,
}

impl SizeRefusal {
    pub fn number(self) -> u8
        ensures { result ≡ size_number self }
    {
        self as u8
    }
}

// How many rows, and how many columns, a plan has at most.
const LIMIT: usize = 128;

// The size of a plan of so many rows and columns, if it can be made where `have` entries of memory are lent and the source takes `need` of them.
pub fn size_check(rows: usize, cols: usize, have: usize, need: usize) -> Result<Size, SizeRefusal>
    ensures { Checked rows cols have need result }
{
    if rows < 1 || rows > LIMIT || cols < 1 || cols > LIMIT {
        return Err(SizeRefusal::Extent);
    }
    if have < need {
        return Err(SizeRefusal::Memory);
    }
    Ok(Size { rows, cols })
}
