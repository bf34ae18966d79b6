// Jumps and labels on a floor of three rows and five columns that has one pillar, in the top row.
use crate::layout::ByteSource;
use floor::Cell;
use source::{Footprint, JumpSource, SizeRefusal, labels};

// Everything open but the second cell of the top row.
fn one_pillar(memory: &mut [u8]) -> ByteSource<'_> {
    let mut floor = ByteSource::make(memory, 3, 5);
    for row in 0..3 {
        for col in 0..5 {
            floor.mark(Cell { row, col }, row != 0 || col != 1);
        }
    }
    floor
}

// From row and column with a heading: steps, and whether live.
const JUMPS: [(usize, usize, u8, u16, bool); 11] = [
    // past the pillar the side opens up
    (1, 0, 2, 2, true),
    // to the wall
    (2, 0, 2, 4, false),
    // the stop on the other side of the pillar
    (1, 4, 6, 4, true),
    // down a column, and down the one at the edge
    (0, 2, 4, 1, true),
    (0, 0, 4, 1, true),
    // up to the edge
    (2, 0, 0, 2, false),
    // a straight jump beside is live
    (2, 0, 1, 1, true),
    // no corner is cut
    (0, 0, 3, 0, false),
    // from a closed cell
    (0, 1, 4, 0, false),
    // from outside
    (3, 0, 0, 0, false),
    // no such heading
    (1, 0, 8, 0, false),
];

#[test]
fn jumps(rt: HostRuntime) {
    let mut memory = [7; 20];
    let floor = one_pillar(&mut memory);
    for (row, col, heading, steps, live) in JUMPS {
        assert_eq!(rt; floor.jump(Cell { row, col }, heading), (steps, live));
    }
    assert_eq!(rt;
        labels(&floor, Cell { row: 2, col: 0 }),
        [32770, 1, 32772, 32768, 32768, 32768, 32768, 32768]
    );
}

#[test]
fn memory_past_the_plan(rt: HostRuntime) {
    let mut memory = [7; 20];
    let size = one_pillar(&mut memory).size();
    assert_eq!(rt; (size.rows, size.cols), (3, 5));
    assert_eq!(rt;
        memory,
        [0, 1, 0, 0, 0, 0, 0, 0, 0, 0, 0, 0, 0, 0, 0, 7, 7, 7, 7, 7]
    );
}

// Rows, columns and bytes, and the number of the refusal.
#[test]
fn sizes(rt: HostRuntime) {
    for (rows, cols, bytes, number) in [
        (128, 128, 16384, None),
        (0, 5, 20, Some(10)),
        (129, 5, 1000, Some(10)),
        (3, 7, 20, Some(11)),
    ] {
        let answer = ByteSource::check(rows, cols, bytes);
        assert_eq!(rt; answer.err().map(SizeRefusal::number), number);
    }
}
