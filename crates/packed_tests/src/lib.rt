// Jumps on packed halls with a few closed cells, of widths that fill words, and one more; and the words of a small plan.
#![tactic(auto)]

use floor::Cell;
use packed::PackedSource;
use source::JumpSource;

// Everything open.
pub fn hall(memory: &mut [u64], rows: usize, cols: usize) -> PackedSource<'_> {
    let mut floor = PackedSource::make(memory, rows, cols);
    for row in 0..rows {
        for col in 0..cols {
            floor.mark(Cell { row, col }, true);
        }
    }
    floor
}

#[cfg(test)]
mod tests {
    use super::*;

    // From wall to wall, and along the edges, where no line lies beside.
    #[test]
    fn widths(rt: HostRuntime) {
        for cols in [1, 64, 65, 128] {
            let mut memory = [0; 512];
            let floor = hall(&mut memory, 2, cols);
            let (first, last) = (
                Cell { row: 1, col: 0 },
                Cell {
                    row: 1,
                    col: cols - 1,
                },
            );
            assert_eq!(rt; floor.jump(first, 2), (cols as u16 - 1, false));
            assert_eq!(rt; floor.jump(last, 6), (cols as u16 - 1, false));
            assert_eq!(rt; floor.jump(last, 0), (1, false));
        }
    }

    // A pillar at the end of one word and one at the start of the next, seen from both sides, and the same turned over.
    #[test]
    fn stops_where_words_meet(rt: HostRuntime) {
        for (pillar, forward, backward) in [(63, 64, 65), (64, 65, 64)] {
            let mut memory = [0; 512];
            let mut floor = hall(&mut memory, 3, 128);
            floor.mark(
                Cell {
                    row: 0,
                    col: pillar,
                },
                false,
            );
            assert_eq!(rt; floor.jump(Cell { row: 1, col: 0 }, 2), (forward, true));
            assert_eq!(rt; floor.jump(Cell { row: 1, col: 127 }, 6), (backward, true));
            let mut floor = hall(&mut memory, 128, 3);
            floor.mark(
                Cell {
                    row: pillar,
                    col: 2,
                },
                false,
            );
            assert_eq!(rt; floor.jump(Cell { row: 0, col: 1 }, 4), (forward, true));
            assert_eq!(rt; floor.jump(Cell { row: 127, col: 1 }, 0), (backward, true));
        }
    }

    // Two rows of a word each, then three columns of a word each, and what lies past them.
    #[test]
    fn words_of_a_plan(rt: HostRuntime) {
        let mut memory = [7; 6];
        assert!(rt; PackedSource::make(&mut memory, 2, 3).mark(Cell { row: 1, col: 2 }, true));
        let closed = u64::MAX;
        assert_eq!(rt; memory, [closed, closed - 4, closed, closed, closed - 2, 7]);
    }
}
