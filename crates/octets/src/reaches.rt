// How far straight headings lead from a cell, and how the index of a cell moves with each step.
ghost use Rattle.std.specs.Prelude.{◌≡◌, ◌<◌, ◌≤◌};
ghost use Rattle.floor.specs.Plane.{turn};
ghost use Rattle.floor.specs.Steps.{by};
ghost use Rattle.octets.specs.Reaches.{CanMove, moved, reach_along, reach_of, beside};

use floor::{Cell, Heading, Shift, Side};
use source::Size;

// How an index moves: on or back by so much.
#[derive(Clone, Copy)]
pub enum Stride {
    On(usize),
    Back(usize),
}

impl Stride {
    // To the cell beside on a side of a straight heading. Past the edge there is none, and the cell itself stands for it.
    pub fn beside(size: Size, cell: Cell, towards: Heading, side: Side) -> Stride
        requires { (cell.row < size.rows) × (cell.col < size.cols) }
        ensures { result ≡ beside size.rows size.cols cell (turn side (turn side towards)) }
    {
        let reach = Reach::of(size, cell, towards.turn(side).turn(side));
        if reach.room > 0 {
            reach.stride
        } else {
            Stride::On(0)
        }
    }

    pub fn moved(self, index: usize) -> usize
        requires { CanMove self index }
        ensures { result ≡ moved self index }
    {
        match self {
            Stride::On(by) => index + by,
            Stride::Back(by) => index - by,
        }
    }
}

// How many steps of a straight heading stay in the plan, and how each of them moves an index.
#[derive(Clone, Copy)]
pub struct Reach {
    pub room: u16,
    pub stride: Stride,
}

impl Reach {
    // From a cell inside.
    pub fn of(size: Size, cell: Cell, towards: Heading) -> Reach
        requires { (cell.row < size.rows) × (cell.col < size.cols) }
        ensures { result ≡ reach_of size.rows size.cols cell towards }
    {
        match towards.down() {
            Shift::Same => Reach::along(cell.col, size.cols, 1, towards.across()),
            down => Reach::along(cell.row, size.rows, size.cols, down),
        }
    }

    // From a place among so many, whose indices lie `gap` apart.
    fn along(place: usize, places: usize, gap: usize, way: Shift) -> Reach
        requires inside { place < places }
        requires few { places ≤ 128 }
        ensures { result ≡ reach_along place places gap (by way) }
    {
        let (room, stride) = match way {
            Shift::Less => (place, Stride::Back(gap)),
            _ => (places - 1 - place, Stride::On(gap)),
        };
        Reach {
            room: room as u16,
            stride,
        }
    }
}
