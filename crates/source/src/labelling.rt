// Labels: a jump as one number, and the eight of a cell together.
ghost use Rattle.std.specs.Prelude.{◌≡◌, ℕ, ◌<◌, length, slice_index};
ghost use Rattle.floor.specs.Jumps.{jump_of};
ghost use Rattle.source.specs.Labels.{label_of, said_by};

use crate::traits::JumpSource;
use floor::Cell;

// Set in the label of a dead jump; the bits below it hold the steps. By itself it is the label of a dead jump of no steps, and those of live jumps are less.
pub const DEAD: u16 = 32768;

// The label of a jump.
pub fn label(steps: u16, live: bool) -> u16
    ensures made { result ≡ label_of (steps, live) }
    ensures back { steps < 32768 → said_by result ≡ (steps, live) }
{
    let low = steps % DEAD;
    if live { low } else { DEAD + low }
}

// The jump that a label says: its steps, and whether it is live.
pub fn read_label(label: u16) -> (u16, bool)
    ensures said { result ≡ said_by label }
    ensures few { result.0 < 32768 }
    ensures back { label_of result ≡ label }
{
    if label < DEAD {
        (label, true)
    } else {
        (label - DEAD, false)
    }
}

// The eight labels of a cell, in the order of the headings.
pub fn labels<S: JumpSource>(source: &S, cell: Cell) -> [u16; 8]
    ensures len { length result ≡ 8 }
    ensures made { (h : ℕ) → h < 8 → slice_index result h ≡ label_of (jump_of (S.JumpSource.meaning source.now) cell h) }
    ensures back { (h : ℕ) → h < 8 → said_by (slice_index result h) ≡ jump_of (S.JumpSource.meaning source.now) cell h }
{
    // Kept: it is a rule of the project that the array of eight is filled heading by heading.
    let mut all = [0u16; 8];
    for heading in 0..8 {
        let (steps, live) = source.jump(cell, heading as u8);
        all[heading] = label(steps, live);
    }
    all
}
