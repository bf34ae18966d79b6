// Successors: where a jump leads on the way to a target, by one jump of the source and no loop.
ghost use Rattle.std.specs.Prelude.{◌≡◌, ◌^◌, ◌<◌};
ghost use Rattle.floor.specs.declared.Cell.{Cell as Spot};
ghost use Rattle.floor.specs.Plane.{point};
ghost use Rattle.floor.specs.Jumps.{walk};
ghost use Rattle.floor.specs.Places.{many};
ghost use Rattle.pruning.specs.Successors.{Leads, Lands, Sighted, nearest, far_of};

use floor::{Cell, Counts, Heading, Shift};
use source::JumpSource;

// A leap to a successor: the cell where it ends, and the counts of its steps.
#[derive(Clone, Copy, PartialEq, Eq, Debug)]
pub struct Leap {
    pub cell: Cell,
    pub counts: Counts,
}

// The successor of a cell on a heading towards a target, if it has one.
// Kept, here and below: cell and heading are two arguments, since nothing holds of the pair and a struct would only be taken apart: no plainer.
pub fn successor<S: JumpSource>(
    source: &S,
    cell: Cell,
    heading: Heading,
    target: Cell,
) -> Option<Leap>
    ensures exact { Leads (S.JumpSource.meaning source.now) cell heading target result }
    ensures lands { Lands (S.JumpSource.meaning source.now) result }
{
    let (steps, live) = source.jump(cell, u8::from(heading));
    let steps = far(sighting(cell, heading, target), usize::from(steps), live)?;
    Some(Leap {
        cell: walked(cell, heading, steps),
        counts: counted(heading, steps),
    })
}

// How far the successor lies: at the first sighting of the target, if the jump gets there, else at the end of a live jump.
fn far(sighted: Option<usize>, steps: usize, live: bool) -> Option<usize>
    ensures { result ≡ far_of sighted steps live }
{
    match sighted {
        Some(k) if k <= steps => Some(k),
        _ if live => Some(steps),
        _ => None,
    }
}

// After how many steps of a heading the target is first sighted: itself on a straight heading, its row or its column on a diagonal one.
fn sighting(cell: Cell, heading: Heading, target: Cell) -> Option<usize>
    ensures { Sighted (point target) heading (point cell) result }
{
    let down = heading.down();
    let across = heading.across();
    let rows = down.steps_between(cell.row, target.row);
    let cols = across.steps_between(cell.col, target.col);
    match (down, across) {
        (Shift::Same, _) => if cell.row == target.row { cols } else { None },
        (_, Shift::Same) => if cell.col == target.col { rows } else { None },
        _ => nearer(rows, cols),
    }
}

// The lesser of two numbers, where there are any.
fn nearer(x: Option<usize>, y: Option<usize>) -> Option<usize>
    ensures { result ≡ nearest x y }
{
    match (x, y) {
        (Some(a), Some(b)) if b < a => Some(b),
        (Some(a), _) => Some(a),
        (None, _) => y,
    }
}

// The cell so many steps on, where that is one.
fn walked(cell: Cell, heading: Heading, steps: usize) -> Cell
    requires { (c : Spot) × (c.row < 2 ^ 64) × (c.col < 2 ^ 64) × (point c ≡ walk heading steps (point cell)) }
    ensures { point result ≡ walk heading steps (point cell) }
{
    Cell {
        row: heading.down().carry(cell.row, steps),
        col: heading.across().carry(cell.col, steps),
    }
}

// The counts of so many steps of a heading.
fn counted(heading: Heading, steps: usize) -> Counts
    requires { steps < 2 ^ 32 }
    ensures { result ≡ many heading steps }
{
    if heading.is_diagonal() {
        Counts {
            straight: 0,
            diagonal: steps as u32,
        }
    } else {
        Counts {
            straight: steps as u32,
            diagonal: 0,
        }
    }
}
