// Places by their numbers, and what a search needs of the leaps between them.
#![tactic(auto)]

ghost use Rattle.std.specs.Prelude.{◌≡◌, ◌^◌, ◌<◌};
ghost use Rattle.floor.specs.Places.{place_number};
ghost use Rattle.places.specs.Leaps.{cell_of, heading_of};

use floor::{Cell, Heading};

// A cell, with the heading of arrival there.
#[derive(Clone, Copy, PartialEq, Eq, Debug)]
pub struct Place {
    pub cell: Cell,
    pub heading: Heading,
}

impl Place {
    // Its number on a plan of so many columns: eight to a cell, cells in row order.
    pub fn number(self, cols: usize) -> u32
        requires { place_number cols self.cell self.heading < 2 ^ 32 }
        ensures { result ≡ place_number cols self.cell self.heading }
    {
        (8 * (self.cell.row * cols + self.cell.col) + usize::from(self.heading)) as u32
    }

    // The place of a number.
    pub fn numbered(number: u32, cols: usize) -> Place
        requires { 0 < cols }
        ensures cell { result.cell ≡ cell_of cols number }
        ensures heading { result.heading ≡ heading_of number }
    {
        Place {
            cell: cell_of(number, cols),
            heading: heading_of(number),
        }
    }
}

// The cell of the place of a number, on a plan of so many columns.
pub fn cell_of(number: u32, cols: usize) -> Cell
    requires { 0 < cols }
    ensures { result ≡ cell_of cols number }
{
    let index = number as usize / 8;
    Cell {
        row: index / cols,
        col: index % cols,
    }
}

// The heading of arrival at the place of a number, on a plan of any size.
pub fn heading_of(number: u32) -> Heading
    ensures { result ≡ heading_of number }
{
    Heading::try_from((number % 8) as u8).unwrap_or(Heading::North)
}
