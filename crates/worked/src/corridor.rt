// The corridor on any source: drawn there through the trait, and asked for its jumps.
ghost use Rattle.std.specs.Prelude.{◌≡◌, false, if◌then◌else◌, Some, None};
ghost use Rattle.floor.specs.Jumps.{jump_of};
ghost use Rattle.worked.specs.Examples.{drawn};
ghost use Rattle.worked.specs.Table.{corridor};
ghost use Rattle.worked.specs.Corridor.{fits};

use floor::Cell;
use source::{JumpSource, Size, open_all};

const SIZE: Size = Size { rows: 3, cols: 5 };

const CELLS: [Cell; 15] = [
    Cell { row: 0, col: 0 },
    Cell { row: 0, col: 1 },
    Cell { row: 0, col: 2 },
    Cell { row: 0, col: 3 },
    Cell { row: 0, col: 4 },
    Cell { row: 1, col: 0 },
    Cell { row: 1, col: 1 },
    Cell { row: 1, col: 2 },
    Cell { row: 1, col: 3 },
    Cell { row: 1, col: 4 },
    Cell { row: 2, col: 0 },
    Cell { row: 2, col: 1 },
    Cell { row: 2, col: 2 },
    Cell { row: 2, col: 3 },
    Cell { row: 2, col: 4 },
];

const SHUT: Cell = Cell { row: 0, col: 1 };

// Draws the corridor, whatever cells were open, and answers yes; a source of another size stays as it is.
fn draw<S: JumpSource>(source: &mut S) -> bool
    ensures answer { result ≡ fits (S.JumpSource.meaning source.old) }
    ensures plan { S.JumpSource.meaning source.new ≡ (if fits (S.JumpSource.meaning source.old) then drawn corridor else S.JumpSource.meaning source.old) }
    ensures stays { fits (S.JumpSource.meaning source.old) ≡ false → source.new ≡ source.old }
    ensures kept { S.JumpSource.lent source.old source.new }
{
    if source.size() != SIZE {
        return false;
    }
    open_all(source, &CELLS);
    source.mark(SHUT, false)
}

// The jump in the corridor, as this source answers it; none if the source has another size.
pub fn corridor_jump<S: JumpSource>(source: &mut S, cell: Cell, heading: u8) -> Option<(u16, bool)>
    ensures answer { result ≡ (if fits (S.JumpSource.meaning source.old) then Some (jump_of (drawn corridor) cell heading) else None) }
    ensures plan { S.JumpSource.meaning source.new ≡ (if fits (S.JumpSource.meaning source.old) then drawn corridor else S.JumpSource.meaning source.old) }
    ensures stays { fits (S.JumpSource.meaning source.old) ≡ false → source.new ≡ source.old }
    ensures kept { S.JumpSource.lent source.old source.new }
{
    if draw(source) {
        Some(source.jump(cell, heading))
    } else {
        None
    }
}
