// The walks that mend a table once more, over a copy of its labels, with a count of the labels read and written.
// Kept: the table's walk once more, over a copy, since the proved code counts nothing; a count within the table would be carried by every mark, and be no plainer.
use floor::{Cell, Heading, Side};
use source::{DEAD, JumpSource};
use std::alloc::{AllocError, Global};
use table::TableSource;

// Rows, and columns, of the floors that are measured.
pub const SIDE: usize = 128;

// Eight labels for each cell.
const LABELS: usize = 131072;

// Straight ones first, since diagonal labels look at straight ones.
const HEADINGS: [Heading; 8] = [
    Heading::North,
    Heading::East,
    Heading::South,
    Heading::West,
    Heading::NorthEast,
    Heading::SouthEast,
    Heading::SouthWest,
    Heading::NorthWest,
];

// How many labels were read, and how many written.
#[derive(Clone, Copy, Default)]
pub struct Effort {
    pub reads: u64,
    pub writes: u64,
}

#[derive(Drop)]
pub struct Twin {
    labels: Vec<u16>,
    effort: Effort,
}

// What became of a label that was put right.
// Kept: beside the table's own, which only the table uses; one for both would be no plainer.
#[derive(Clone, Copy, PartialEq, Eq)]
enum Change {
    Same,
    Steps,
    Life,
}

fn place_of(cell: Cell, towards: Heading) -> Option<usize> {
    if cell.row < SIDE && cell.col < SIDE {
        Some(8 * (cell.row * SIDE + cell.col) + usize::from(towards))
    } else {
        None
    }
}

impl Twin {
    // A copy of the labels of a floor.
    pub fn of(heap: Global, floor: &TableSource<'_>) -> Result<Twin, AllocError> {
        let mut labels = Vec::new(heap);
        for row in 0..SIDE {
            for col in 0..SIDE {
                labels.extend(floor.labels(Cell { row, col }))?;
            }
        }
        Ok(Twin {
            labels,
            effort: Effort::default(),
        })
    }

    pub fn effort(&self) -> Effort {
        self.effort
    }

    // Whether the labels are those of the floor.
    pub fn agrees(&self, floor: &TableSource<'_>) -> bool {
        let mut cells = self.labels.as_slice().chunks(8).enumerate();
        self.labels.len() == LABELS
            && cells.all(|(place, labels)| {
                let cell = Cell {
                    row: place / SIDE,
                    col: place % SIDE,
                };
                labels == floor.labels(cell).as_slice()
            })
    }

    fn label(&mut self, cell: Cell, towards: Heading) -> u16 {
        self.effort.reads = self.effort.reads.wrapping_add(1);
        place_of(cell, towards)
            .and_then(|place| self.labels.get(place).copied())
            .unwrap_or(DEAD)
    }

    fn write(&mut self, cell: Cell, towards: Heading, label: u16) {
        self.effort.writes = self.effort.writes.wrapping_add(1);
        if let Some(place) = place_of(cell, towards)
            && let Some(slot) = self.labels.get_mut(place)
        {
            *slot = label;
        }
    }

    // What a label should be. The marked floor says whether a step is legal, and whether it ends at a stop.
    // Kept, here and below: floor, cell and heading are three arguments, since nothing holds of the three and a struct would only be taken apart: no plainer.
    fn due(&mut self, floor: &TableSource<'_>, cell: Cell, towards: Heading) -> u16 {
        let jump = floor.jump(cell, u8::from(towards));
        let Some(next) = cell.stepped(towards) else {
            return DEAD;
        };
        if jump.0 == 0 {
            return DEAD;
        }
        let ends = if towards.is_diagonal() {
            self.label(next, towards.turn(Side::Left)) < DEAD
                || self.label(next, towards.turn(Side::Right)) < DEAD
        } else {
            jump == (1, true)
        };
        if ends {
            1
        } else {
            self.label(next, towards).wrapping_add(1)
        }
    }

    fn put_right(&mut self, floor: &TableSource<'_>, cell: Cell, towards: Heading) -> Change {
        if cell.row >= SIDE || cell.col >= SIDE {
            return Change::Same;
        }
        let old = self.label(cell, towards);
        let due = self.due(floor, cell, towards);
        if due == old {
            return Change::Same;
        }
        self.write(cell, towards, due);
        if (due < DEAD) == (old < DEAD) {
            Change::Steps
        } else {
            Change::Life
        }
    }

    // Puts labels right along a line, backwards, until one is right already. Where a straight one comes to life or dies, the two diagonal
    // headings that look at it are followed back at once, in the same way.
    fn mend_from(&mut self, floor: &TableSource<'_>, from: Option<Cell>, towards: Heading) {
        let mut at = from;
        // Kept: so many steps at most, in place of a measure of what is left to walk, which would be no plainer.
        for _ in 0..SIDE {
            let Some(cell) = at else {
                return;
            };
            match self.put_right(floor, cell, towards) {
                Change::Same => return,
                Change::Steps => {}
                Change::Life => {
                    if !towards.is_diagonal() {
                        let left = towards.turn(Side::Left);
                        let right = towards.turn(Side::Right);
                        self.mend_from(floor, cell.stepped(left.opposite()), left);
                        self.mend_from(floor, cell.stepped(right.opposite()), right);
                    }
                }
            }
            at = cell.stepped(towards.opposite());
        }
    }

    // The same from the cells next to `cell` on some sides.
    fn mend_around(
        &mut self,
        floor: &TableSource<'_>,
        cell: Cell,
        sides: &[Heading],
        towards: Heading,
    ) {
        for side in sides {
            self.mend_from(floor, cell.stepped(*side), towards);
        }
    }

    // Mends the labels of one heading.
    fn mend_heading(&mut self, floor: &TableSource<'_>, cell: Cell, towards: Heading) {
        let back = towards.opposite();
        let left = back.turn(Side::Left);
        let right = back.turn(Side::Right);
        self.mend_from(floor, Some(cell), towards);
        self.mend_around(floor, cell, &[back, left, right], towards);
        if !towards.is_diagonal() {
            let further = [left.turn(Side::Left), right.turn(Side::Right)];
            self.mend_around(floor, cell, &further, towards);
        }
    }

    // Mends the copy after a mark of the floor at `cell`, in the order in which the table does.
    pub fn mend(&mut self, floor: &TableSource<'_>, cell: Cell) {
        for towards in HEADINGS {
            self.mend_heading(floor, cell, towards);
        }
    }
}
