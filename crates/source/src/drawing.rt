// Drawing a plan on a source, whatever it is.
ghost use Rattle.std.specs.Prelude.{◌≡◌};
ghost use Rattle.source.specs.Drawing.{opened};

use crate::traits::JumpSource;
use floor::Cell;

// Opens these cells; those outside are passed over.
pub fn open_all<S: JumpSource>(source: &mut S, cells: &[Cell])
    ensures plan { S.JumpSource.meaning source.new ≡ opened (S.JumpSource.meaning source.old) cells.now }
    ensures kept { S.JumpSource.lent source.old source.new }
{
    for cell in cells {
        source.mark(*cell, true);
    }
}
