// A floor of three rows and five columns that has one pillar, in the top row: its table is known, and is the same whichever way the floor came about.
use floor::Cell;
use source::JumpSource;
use table::TableSource;

// Everything open but the second cell of the top row.
// Kept: the floor and the jumps that the byte source is tested on; tests stand beside their source, and a crate for both is no plainer.
fn one_pillar(memory: &mut [u16]) -> TableSource<'_> {
    let mut floor = TableSource::make(memory, 3, 5);
    for row in 0..3 {
        for col in 0..5 {
            floor.mark(Cell { row, col }, row != 0 || col != 1);
        }
    }
    floor
}

// From row and column with a heading: steps, and whether live.
const JUMPS: [(usize, usize, u8, u16, bool); 8] = [
    // past the pillar the side opens up
    (1, 0, 2, 2, true),
    // to the wall
    (2, 0, 2, 4, false),
    // the stop on the other side of the pillar
    (1, 4, 6, 4, true),
    // a straight jump beside is live
    (2, 0, 1, 1, true),
    // no corner is cut
    (0, 0, 3, 0, false),
    // from a closed cell
    (0, 1, 4, 0, false),
    // from outside
    (3, 0, 0, 0, false),
    // no such heading
    (1, 0, 8, 0, false),
];

#[test]
fn jumps(rt: HostRuntime) {
    let mut memory = [7; 140];
    let floor = one_pillar(&mut memory);
    for (row, col, heading, steps, live) in JUMPS {
        assert_eq!(rt; floor.jump(Cell { row, col }, heading), (steps, live));
    }
    assert_eq!(rt;
        floor.labels(Cell { row: 2, col: 0 }),
        [32770, 1, 32772, 32768, 32768, 32768, 32768, 32768]
    );
    assert_eq!(rt;
        floor.labels(Cell { row: 3, col: 0 }),
        [32768, 32768, 32768, 32768, 32768, 32768, 32768, 32768]
    );
}

#[test]
fn closed_and_opened_again(rt: HostRuntime) {
    let mut memory = [7; 140];
    let mut other = [7; 140];
    let mut floor = one_pillar(&mut memory);
    for col in 0..5 {
        assert!(rt; floor.mark(Cell { row: 1, col }, false));
    }
    assert_eq!(rt; floor.jump(Cell { row: 2, col: 0 }, 1), (0, false));
    for col in 0..5 {
        assert!(rt; floor.mark(Cell { row: 1, col }, true));
    }
    assert!(rt; !floor.mark(Cell { row: 3, col: 0 }, true));
    let size = one_pillar(&mut other).size();
    assert_eq!(rt; (size.rows, size.cols), (3, 5));
    assert_eq!(rt; memory, other);
    assert_eq!(rt; memory[134], 1);
    assert_eq!(rt; memory[135], 7);
}
